// What the tests share: tables that hold leftovers, short calls, and checks of what a call answered.
use egraph::egraph::EGraph;
use egraph::enode::ENode;
use egraph::equality::{Given, Kind};
use frames::rule::FrameRule;
use model::error::{Cause, Fault};
use model::items::{ArgPairs, EqualityExpl, Pair, RootWalk, Step};
use std::fmt::Debug;
use std::process::Abort;

// Rows of an earlier use, which a caller may hand in.
pub const OLD_ENODE: ENode = ENode {
    owner: 77,
    frame: 9,
    newest: Some(5),
};

pub const OLD_GIVEN: Given = Given {
    from: 8,
    to: 9,
    frame: 7,
    kind: Kind::Congruence { start: 90, len: 9 },
    older: Some(3),
};

pub const OLD_PAIR: Pair = Pair { from: 6, to: 7 };

pub const NO_STEP: Step = Step {
    given: 99,
    forward: false,
};

// The tables that a test lends, full of such rows.
#[derive(Drop)]
pub struct Tables<const ENODES: usize, const GIVENS: usize, const PAIRS: usize> {
    enodes: [ENode; ENODES],
    givens: [Given; GIVENS],
    pairs: [Pair; PAIRS],
}

impl<const ENODES: usize, const GIVENS: usize, const PAIRS: usize> Tables<ENODES, GIVENS, PAIRS> {
    pub fn old() -> Self {
        Tables {
            enodes: [OLD_ENODE; ENODES],
            givens: [OLD_GIVEN; GIVENS],
            pairs: [OLD_PAIR; PAIRS],
        }
    }

    pub fn case<R: FrameRule>(&mut self, rule: R) -> EGraph<'_, R> {
        EGraph::new(&mut self.enodes, &mut self.givens, &mut self.pairs, rule)
    }
}

// The scratch that a test's questions work on, and what they leave in it.
#[derive(Drop)]
pub struct Scratch<const MARKS: usize, const PLACES: usize, const STEPS: usize> {
    pub marks: [u8; MARKS],
    pub walks: [u32; PLACES],
    pub steps: [Step; STEPS],
}

impl<const MARKS: usize, const PLACES: usize, const STEPS: usize> Scratch<MARKS, PLACES, STEPS> {
    // Full of such leftovers.
    pub fn filled(mark: u8, enode: u32) -> Self {
        Scratch {
            marks: [mark; MARKS],
            walks: [enode; PLACES],
            steps: [NO_STEP; STEPS],
        }
    }

    pub fn walk<R: FrameRule>(
        &mut self,
        graph: &EGraph<'_, R>,
        from: u32,
        root: Option<u32>,
    ) -> Result<RootWalk, Fault> {
        graph.path_to_root(from, root, &mut self.marks, &mut self.walks)
    }

    pub fn check_eq<R: FrameRule>(
        &mut self,
        graph: &EGraph<'_, R>,
        from: u32,
        to: u32,
    ) -> Result<bool, Fault> {
        graph.check_eq(from, to, &mut self.marks, &mut self.walks)
    }

    pub fn path<R: FrameRule>(
        &mut self,
        graph: &EGraph<'_, R>,
        from: u32,
        to: u32,
    ) -> Result<Option<usize>, Fault> {
        graph.path(from, to, &mut self.marks, &mut self.walks, &mut self.steps)
    }
}

pub fn axiom(from: u32, to: u32) -> EqualityExpl<'static> {
    EqualityExpl::Axiom { from, to }
}

pub fn root(id: u32) -> EqualityExpl<'static> {
    EqualityExpl::Root { id }
}

pub fn literal(from: u32, to: u32) -> EqualityExpl<'static> {
    EqualityExpl::Literal { from, eq: 4, to }
}

pub fn congruence(from: u32, to: u32, words: &[u32]) -> EqualityExpl<'_> {
    EqualityExpl::Congruence {
        from,
        arg_eqs: ArgPairs { words },
        to,
    }
}

pub fn root_walk(tells: Option<u32>, len: usize) -> RootWalk {
    RootWalk { tells, len }
}

pub fn up(given: u32) -> Step {
    Step {
        given,
        forward: true,
    }
}

pub fn down(given: u32) -> Step {
    Step {
        given,
        forward: false,
    }
}

// Why a call is refused, whichever pair the refusal names.
pub fn refuses<T: PartialEq + Debug + Drop>(
    rt: &impl Abort,
    answer: Result<T, Fault>,
    cause: Cause,
) {
    assert_eq!(rt; answer.map_err(|fault| fault.cause), Err(cause));
}

pub fn log_enodes<R: FrameRule>(graph: &mut EGraph<'_, R>, count: u32) -> Result<(), Fault> {
    for owner in 0..count {
        graph.new_enode(owner)?;
    }
    Ok(())
}

// Logs an axiom for each of these pairs, under its first end.
pub fn log_pairs<R: FrameRule>(
    graph: &mut EGraph<'_, R>,
    ends: &[(u32, u32)],
) -> Result<(), Fault> {
    for &(from, to) in ends {
        graph.new_given_equality(from, axiom(from, to))?;
    }
    Ok(())
}

pub fn counts<R: FrameRule>(rt: &impl Abort, graph: &EGraph<'_, R>, enodes: usize, givens: usize) {
    assert_eq!(rt;
        (graph.enode_count(), graph.given_count()),
        (enodes, givens)
    );
}

// The small records that every layer shares. Enodes and givens go by number.

// Two enodes, in order.
#[derive(Clone, Copy, Debug, Default, PartialEq, Eq)]
pub struct Pair {
    pub from: u32,
    pub to: u32,
}

// A given with a direction. The given is there in both, so that the flag stands for no Option.
#[derive(Clone, Copy, Debug, Default, PartialEq, Eq)]
pub struct Step {
    pub given: u32,
    pub forward: bool,
}

// An enode's link: the given that it follows, and that given's second end.
#[derive(Clone, Copy, Debug, PartialEq, Eq)]
pub struct Link {
    pub given: u32,
    pub to: u32,
}

// How a root walk went: the enode that it tells, if any, and how many enodes it met.
#[derive(Clone, Copy, Debug, PartialEq, Eq)]
pub struct RootWalk {
    pub tells: Option<u32>,
    pub len: usize,
}

// An open frame, with the number of givens logged under it.
#[derive(Clone, Copy, Debug, Default, PartialEq, Eq)]
pub struct Frame {
    pub number: u32,
    pub count: u32,
}

// An argument pair of a given, by its place from 0.
#[derive(Clone, Copy, Debug, PartialEq, Eq)]
pub struct Argument {
    pub given: u32,
    pub place: u32,
}

// The argument pairs of a congruence as they stand in a log: two words a pair. An odd last word is in no pair.
#[derive(Clone, Copy, Debug, PartialEq, Eq)]
pub struct ArgPairs<'a> {
    pub words: &'a [u32],
}

// The argument pairs of a congruence that are still to come, in order.
#[derive(Clone, Debug, Drop)]
pub struct Pairs<'a> {
    pub rest: ArgPairs<'a>,
}

// A given as it is logged: where it came from, and its two ends.
#[derive(Clone, Copy, Debug, PartialEq, Eq)]
pub enum EqualityExpl<'a> {
    Root {
        id: u32,
    },
    Literal {
        from: u32,
        eq: u32,
        to: u32,
    },
    Congruence {
        from: u32,
        arg_eqs: ArgPairs<'a>,
        to: u32,
    },
    Theory {
        from: u32,
        theory: u32,
        to: u32,
    },
    Axiom {
        from: u32,
        to: u32,
    },
    Unknown {
        kind: u32,
        from: u32,
        to: u32,
    },
}

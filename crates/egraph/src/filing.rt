// Filing a given that was checked: its argument pairs, its record, and its place as the newest under its first end.
ghost use Rattle.std.specs.Prelude.{◌≡◌, ◌+◌, ◌<◌, ◌≤◌, min, ◌++◌, length};
ghost use Rattle.model.specs.Explanations.{pairs_of};
ghost use Rattle.model.specs.Records.{args_of};
ghost use Rattle.model.specs.Explanations.{kind_of};
ghost use Rattle.egraph.specs.Table.{listed, places};
ghost use Rattle.egraph.specs.Filing.{GivenFiled, GivenFits, row_kind};

use crate::enode::ENode;
use crate::equality::{Given, Kind};
use crate::records::{ARGUMENTS, Records};
use crate::table::Table;
use model::items::{ArgPairs, EqualityExpl, Pair};

fn push_pairs(table: &mut Table<'_, Pair, ARGUMENTS>, pairs: ArgPairs<'_>)
    requires { table.old.len + length (pairs_of pairs.words.now) ≤ min ARGUMENTS (places table.old) }
    ensures len { table.new.len ≡ table.old.len + length (pairs_of pairs.entry.words.now) }
    ensures places { places table.new ≡ places table.old }
    ensures listed { listed table.new ≡ listed table.old ++ pairs_of pairs.entry.words.now }
{
    for pair in pairs {
        table.push(pair);
    }
}

// The kind of a given whose argument pairs stand from `start` on.
fn kind_at(start: u32, expl: EqualityExpl<'_>) -> Kind
    requires { length (args_of (kind_of expl)) ≤ ARGUMENTS }
    ensures { result ≡ row_kind start expl.entry }
{
    match expl {
        EqualityExpl::Root { .. } => Kind::Root,
        EqualityExpl::Literal { eq, .. } => Kind::Literal(eq),
        EqualityExpl::Congruence { arg_eqs, .. } => Kind::Congruence {
            start,
            len: arg_eqs.len() as u32,
        },
        EqualityExpl::Theory { theory, .. } => Kind::Theory(theory),
        EqualityExpl::Axiom { .. } => Kind::Axiom,
        EqualityExpl::Unknown { kind, .. } => Kind::Unknown(kind),
    }
}

impl Records<'_> {
    // Files the given, and answers its number.
    #[inline(always)]
    pub(crate) fn file_given(&mut self, expl: EqualityExpl<'_>, frame: u32) -> u32
        requires { GivenFits self.old expl }
        ensures number { result ≡ length (listed self.old.givens) }
        ensures filed { GivenFiled self.old expl.entry frame self.new }
    {
        let number = self.givens.len as u32;
        let Pair { from, to } = expl.ends();
        let under = from as usize;
        let enode = self.enodes.filed()[under];
        let kind = kind_at(self.arguments.len as u32, expl);
        self.givens.push(Given {
            from,
            to,
            frame,
            kind,
            older: enode.newest,
        });
        push_pairs(&mut self.arguments, expl.arg_eqs());
        self.enodes.put(
            under,
            ENode {
                newest: Some(number),
                ..enode
            },
        );
        number
    }
}

// What is checked before a call changes anything.
ghost use Rattle.std.specs.Prelude.{◌≡◌, [], ◌∷◌};
ghost use Rattle.model.specs.Refusals.{told};
ghost use Rattle.model.specs.Checks.{all_known, require};
ghost use Rattle.model.specs.Explanations.{pairs_of, from_of, to_of, kind_of};
ghost use Rattle.model.specs.Logging.{pair_ends, given_checks};
ghost use Rattle.model.specs.WalkCalls.{long_enough};
ghost use Rattle.egraph.specs.Graph.{case_on_file, size_on_file};
ghost use Rattle.egraph.specs.View.{refuse_for, room_checks};
ghost use Rattle.model.specs.Records.{args_of};

use crate::egraph::EGraph;
use frames::rule::FrameRule;
use model::error::{Cause, Fault, TableName};
use model::items::{ArgPairs, EqualityExpl, Pair};

// Refuses for that cause what does not hold.
pub(crate) fn require(holds: bool, cause: Cause) -> Result<(), Fault>
    ensures { told result ≡ require holds (refuse_for cause) }
{
    if holds {
        return Ok(());
    }
    Err(Fault::new(cause))
}

// Whether a table that is lent has the places needed.
pub(crate) fn check_length(needed: usize, len: usize) -> Result<(), Fault>
    ensures { told result ≡ long_enough needed len }
{
    require(len >= needed, Cause::Short(needed))
}

impl<'a, R: FrameRule> EGraph<'a, R> {
    // A number that is known to be on the books is no type of its own: the fact is one of the graph too, and a type could not name it.
    pub(crate) fn check_enode(&self, enode: u32) -> Result<(), Fault>
        ensures { told result ≡ all_known (size_on_file self.now) (enode ∷ []) }
    {
        require(
            (enode as usize) < self.enode_count(),
            Cause::UnknownEnode(enode),
        )
    }

    pub(crate) fn check_known(&self, pair: Pair) -> Result<(), Fault>
        ensures { told result ≡ all_known (size_on_file self.now) (pair.from ∷ pair.to ∷ []) }
    {
        self.check_enode(pair.from)?;
        self.check_enode(pair.to)
    }

    fn check_arguments(&self, arguments: ArgPairs<'_>) -> Result<(), Fault>
        ensures { told result ≡ all_known (size_on_file self.now) (pair_ends (pairs_of arguments.entry.words.now)) }
    {
        for pair in arguments {
            self.check_known(pair)?;
        }
        Ok(())
    }

    fn check_ends(&self, under: u32, expl: EqualityExpl<'_>) -> Result<(), Fault>
        ensures { told result ≡ all_known (size_on_file self.now) (under ∷ from_of expl.entry ∷ to_of expl.entry ∷ pair_ends (args_of (kind_of expl.entry))) }
    {
        self.check_enode(under)?;
        self.check_known(expl.ends())?;
        self.check_arguments(expl.arg_eqs())
    }

    // Whether a given with that many argument pairs goes in.
    fn check_room(&self, arguments: usize) -> Result<(), Fault>
        ensures { told result ≡ room_checks self.now.records arguments }
    {
        self.records.givens.check_room(1, TableName::Givens)?;
        self.records
            .arguments
            .check_room(arguments, TableName::Arguments)
    }

    // What a given is checked for, but for the frame's count.
    #[tactic(auto, using(crate::proofs::GivenChecks::checks_filed))]
    pub(crate) fn check_given(&self, under: u32, expl: EqualityExpl<'_>) -> Result<(), Fault>
        ensures { told result ≡ given_checks under (from_of expl.entry) (to_of expl.entry) (kind_of expl.entry) (case_on_file self.now) }
    {
        self.check_ends(under, expl)?;
        require(under == expl.from(), Cause::NotFirstEnd(under))?;
        self.check_room(expl.arg_eqs().len())
    }
}

// The records of a case in tables that the caller lends, with the frame rule beside them.
ghost use Rattle.std.specs.Prelude.{◌≡◌, length};
ghost use Rattle.model.specs.Logging.{empty_case};
ghost use Rattle.egraph.specs.View.{ArgumentsFiled, EndsFiled, InLists};

use crate::enode::ENode;
use crate::equality::Given;
use crate::records::Records;
use crate::table::Table;
use frames::rule::FrameRule;
use model::items::Pair;

#[derive(Drop)]
pub struct EGraph<'a, R: FrameRule> {
    pub(crate) records: Records<'a>,
    pub(crate) rule: R,
    ghost arguments_filed: { ArgumentsFiled records },
    ghost ends_filed: { EndsFiled records },
    ghost in_lists: { InLists records },
}

impl<'a, R: FrameRule> EGraph<'a, R> {
    ghost use Rattle.egraph.specs.Graph.{case_on_file};

    // An empty case: nothing is on file, whatever the tables hold.
    pub fn new(
        enodes: &'a mut [ENode],
        givens: &'a mut [Given],
        arguments: &'a mut [Pair],
        rule: R,
    ) -> EGraph<'a, R>
        ensures { case_on_file result ≡ empty_case (record { enodes = length enodes.old; givens = length givens.old; arguments = length arguments.old }) (R.FrameRule.means rule) }
    {
        EGraph {
            records: Records {
                enodes: Table::empty(enodes),
                givens: Table::empty(givens),
                arguments: Table::empty(arguments),
            },
            rule,
        }
    }
}

// Logging: new enodes and givens, or a refusal that leaves all unchanged.
ghost use Rattle.std.specs.Prelude.{◌≡◌, OnErr};
ghost use Rattle.model.specs.Refusals.{told};
ghost use Rattle.model.specs.Logging.{new_enode, new_given};
ghost use Rattle.model.specs.Explanations.{from_of, to_of, kind_of};
ghost use Rattle.egraph.specs.Graph.{case_on_file};
ghost use Rattle.egraph.specs.View.{Unchanged};

use crate::egraph::EGraph;
use crate::enode::ENode;
use frames::rule::FrameRule;
use model::error::{Fault, TableName};
use model::items::EqualityExpl;

impl<'a, R: FrameRule> EGraph<'a, R> {
    // A new enode of the term `owner`, in the active frame.
    pub fn new_enode(&mut self, owner: u32) -> Result<u32, Fault>
        ensures outcome { (told result, case_on_file self.new) ≡ new_enode owner (case_on_file self.old) }
        ensures kept { OnErr result (Unchanged self.old.records self.new.records × (self.new.rule ≡ self.old.rule)) }
    {
        self.records.enodes.check_room(1, TableName::Enodes)?;
        let place = self.records.enodes.len as u32;
        let frame = self.rule.active_frame();
        self.records.enodes.push(ENode {
            owner,
            frame,
            newest: None,
        });
        Ok(place)
    }

    // A new given in the active frame, under the enode `from`, which is its first end.
    // Inlined, with its filing, so that a caller's compiler drops what a known kind does not need.
    #[inline(always)]
    pub fn new_given_equality(&mut self, from: u32, expl: EqualityExpl<'_>) -> Result<u32, Fault>
        ensures outcome { (told result, case_on_file self.new) ≡ new_given from (from_of expl.entry) (to_of expl.entry) (kind_of expl.entry) (case_on_file self.old) }
        ensures kept { OnErr result (Unchanged self.old.records self.new.records × (self.new.rule ≡ self.old.rule)) }
    {
        self.check_given(from, expl)?;
        let frame = self.rule.log_given()?;
        Ok(self.records.file_given(expl, frame))
    }
}

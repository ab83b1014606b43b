// The frames of a case, and how much is on its books.
ghost use Rattle.std.specs.Prelude.{◌≡◌, length, OnErr};
ghost use Rattle.model.specs.Frames.{Lawful, open_frame, close_frame};
ghost use Rattle.model.specs.Refusals.{told};
ghost use Rattle.model.specs.Logging.{on_frames};
ghost use Rattle.egraph.specs.Graph.{frames_of, case_on_file, givens_on_file, size_on_file};
ghost use Rattle.egraph.specs.View.{Unchanged};

use crate::egraph::EGraph;
use frames::rule::FrameRule;
use model::error::Fault;

impl<'a, R: FrameRule> EGraph<'a, R> {
    // Opens a frame, and answers its number.
    pub fn new_frame(&mut self) -> Result<u32, Fault>
        ensures outcome { (told result, case_on_file self.new) ≡ on_frames (case_on_file self.old) (open_frame R.FrameRule.limit (frames_of self.old)) }
        ensures kept { Unchanged self.old.records self.new.records × OnErr result (self.new.rule ≡ self.old.rule) }
        ensures lawful { Lawful (frames_of self.new) }
    {
        self.rule.open()
    }

    // Closes the last open frame, and answers how many givens were logged under it.
    pub fn pop_frame(&mut self) -> Result<u32, Fault>
        ensures outcome { (told result, case_on_file self.new) ≡ on_frames (case_on_file self.old) (close_frame (R.FrameRule.leaves self.old.rule) (frames_of self.old)) }
        ensures kept { Unchanged self.old.records self.new.records × OnErr result (self.new.rule ≡ self.old.rule) }
        ensures lawful { Lawful (frames_of self.new) }
    {
        self.rule.close()
    }

    // How many frames are open.
    pub fn height(&self) -> u32
        ensures { result ≡ length (frames_of self.now).opened }
    {
        self.rule.height()
    }

    pub fn enode_count(&self) -> usize
        ensures { result ≡ size_on_file self.now }
    {
        self.records.enodes.len
    }

    #[tactic(auto, using(crate::proofs::GivensUnder::given_count))]
    pub fn given_count(&self) -> usize
        ensures { result ≡ length (givens_on_file self.now) }
    {
        self.records.givens.len
    }
}

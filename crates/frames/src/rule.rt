// A frame rule: which solver frames are open, how many givens were logged under each, and which frames count.
ghost use Rattle.std.specs.Prelude.{◌≡◌, ℕ, ◌≤◌, Bool, length, OnErr};
ghost use Rattle.model.specs.Frames.{Frames, Lawful, Within, current, open_frame, log_frame, close_frame};
ghost use Rattle.model.specs.Refusals.{told};

use model::error::Fault;

pub trait FrameRule {
    ghost means: { Self → Frames };

    // how many frames may be open
    ghost limit: { ℕ };

    // the frames that leave the set if the last open frame is closed now: a rule may go by what its meaning does not show, as the order of earlier closings
    ghost leaves: { Self → ℕ → Bool };

    fn counts(&self, frame: u32) -> bool
        ensures { result ≡ (means self.now).counts frame };

    // The number of the last open frame.
    fn active_frame(&self) -> u32
        ensures { result ≡ (current (means self.now).opened).number };

    // How many frames are open.
    fn height(&self) -> u32
        ensures { result ≡ length (means self.now).opened };

    // Opens the next frame, and answers its number.
    fn open(&mut self) -> Result<u32, Fault>
        ensures outcome { (told result, means self.new) ≡ open_frame limit (means self.old) }
        ensures kept { OnErr result (self.new ≡ self.old) };

    // Counts a given under the last open frame, and answers the frame's number.
    fn log_given(&mut self) -> Result<u32, Fault>
        ensures outcome { (told result, means self.new) ≡ log_frame (means self.old) }
        ensures kept { OnErr result (self.new ≡ self.old) };

    // Closes the last open frame, and answers how many givens were logged under it.
    fn close(&mut self) -> Result<u32, Fault>
        ensures outcome { (told result, means self.new) ≡ close_frame (leaves self.old) (means self.old) }
        ensures kept { OnErr result (self.new ≡ self.old) };

    ghost limited: { (1 ≤ limit) × (limit ≤ 64) };

    ghost within: { (s : Self) → Within limit (means s) };

    ghost lawful: { (s : Self) → Lawful (means s) };
}

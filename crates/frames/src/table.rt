// The table of open frames: the newest is last, and numbers are never handed out twice.
ghost use Rattle.std.specs.Prelude.{◌≡◌, false, length};
ghost use Rattle.model.specs.Frames.{Lawful, Within, base, current, is_open, open_frame, log_frame, close_frame};
ghost use Rattle.model.specs.Refusals.{told};
ghost use Rattle.frames.specs.declared.table.TheConstants.{MAX_OPEN};
ghost use Rattle.frames.specs.Counting.{counted_up, all_below};

use arrayvec::ArrayVec;
use model::error::{Cause, Fault, TableName};
use model::items::Frame;

pub(crate) const MAX_OPEN: usize = 64;

const MAX_NUMBERS: u32 = 65536;

const MAX_COUNT: u32 = 65536;

// Base frame 0 is first, and every open number was handed out.
#[derive(Drop)]
pub struct FrameTable {
    frames: ArrayVec<Frame, MAX_OPEN>,
    next: u32,
    pub ghost within: { Within MAX_OPEN (all_below frames.items next) },
    pub ghost lawful: { Lawful (all_below frames.items next) },
}

// One given more under the frame, where its count has room.
fn count_up(frame: &mut Frame) -> Result<u32, Fault>
    ensures { (told result, frame.new) ≡ counted_up frame.old }
{
    if frame.count >= MAX_COUNT {
        return Err(Fault::new(Cause::Full(TableName::FrameCount)));
    }
    frame.count += 1;
    Ok(frame.number)
}

impl FrameTable {
    ghost use Rattle.std.specs.Prelude.{OnErr};
    ghost use Rattle.frames.specs.Tables.{handed_out};

    // Base frame 0 is open, at count 0.
    pub fn new() -> FrameTable
        ensures { handed_out result ≡ base }
    {
        let mut frames = ArrayVec::new();
        frames.push(Frame::default());
        FrameTable { frames, next: 1 }
    }

    pub fn height(&self) -> u32
        ensures { result ≡ length (handed_out self.now).opened }
    {
        self.frames.len() as u32
    }

    pub fn active_frame(&self) -> u32
        ensures { result ≡ (current (handed_out self.now).opened).number }
    {
        self.frames.last().unwrap().number
    }

    pub fn is_open(&self, frame: u32) -> bool
        ensures { result ≡ is_open frame (handed_out self.now).opened }
    {
        self.frames.iter().any(|open| open.number == frame)
    }

    pub fn was_handed_out(&self, frame: u32) -> bool
        ensures { result ≡ (handed_out self.now).counts frame }
    {
        frame < self.next
    }

    pub fn open(&mut self) -> Result<u32, Fault>
        ensures outcome { (told result, handed_out self.new) ≡ open_frame MAX_OPEN (handed_out self.old) }
        ensures kept { OnErr result (self.new ≡ self.old) }
    {
        let number = self.next;
        if self.frames.is_full() || number >= MAX_NUMBERS {
            return Err(Fault::new(Cause::FrameLimit(self.height())));
        }
        self.frames.push(Frame { number, count: 0 });
        self.next += 1;
        Ok(number)
    }

    pub fn log_given(&mut self) -> Result<u32, Fault>
        ensures outcome { (told result, handed_out self.new) ≡ log_frame (handed_out self.old) }
        ensures kept { OnErr result (self.new ≡ self.old) }
    {
        // by index, since a proof does not see what a write through `last_mut` leaves
        let newest = self.frames.len() - 1;
        count_up(&mut self.frames[newest])
    }

    pub fn close(&mut self) -> Result<u32, Fault>
        ensures outcome { (told result, handed_out self.new) ≡ close_frame (λ _. false) (handed_out self.old) }
        ensures kept { OnErr result (self.new ≡ self.old) }
    {
        if self.frames.len() <= 1 {
            return Err(Fault::new(Cause::OnlyBase));
        }
        let closed = self.frames.pop().unwrap();
        Ok(closed.count)
    }
}

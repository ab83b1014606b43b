// The rules that go by the table of open frames alone: they differ in which of the frames handed out count.
ghost use Rattle.std.specs.Prelude.{◌≡◌, ℕ, Bool, false, not, ◌&&◌, ◌||◌, ◌==◌};
ghost use Rattle.model.specs.Frames.{Frames, Lawful, base, opened_more, counted_more, closed};
ghost use Rattle.frames.specs.declared.table.TheConstants.{MAX_OPEN};
ghost use Rattle.frames.specs.Counting.{counting};
ghost use Rattle.frames.specs.Tables.{handed_out};
ghost use Rattle.frames.specs.OpenFrames.{table_limited};

use crate::rule::FrameRule;
use crate::table::{FrameTable, MAX_OPEN};
use model::error::Fault;
use std::marker::PhantomData;

// Which of the frames handed out count.
pub trait FrameSet {
    ghost members: { Frames → ℕ → Bool };

    // the frames that leave the set if the last open frame is closed now
    ghost leaving: { Frames → ℕ → Bool };

    fn contains(table: &FrameTable, frame: u32) -> bool
        ensures { result ≡ members (handed_out table.now) frame };

    ghost starts: { (f : ℕ) → members base f ≡ base.counts f };

    ghost opens: { (m : Frames) (f : ℕ) → members (opened_more m) f ≡ (members m f || f == m.next) };

    ghost logs: { (m : Frames) (f : ℕ) → members (counted_more m) f ≡ members m f };

    ghost closes: { (m : Frames) (f : ℕ) → members (closed (λ _. false) m) f ≡ (members m f && not (leaving m f)) };

    ghost lawful: { (m : Frames) → Lawful m → Lawful (counting members m) };
}

#[derive(Drop)]
pub struct TableRule<S> {
    table: FrameTable,
    set: PhantomData<S>,
}

impl<S: FrameSet> TableRule<S> {
    pub fn new() -> TableRule<S>
        ensures { counting S.members (handed_out result.table) ≡ base }
    {
        TableRule {
            table: FrameTable::new(),
            set: PhantomData,
        }
    }
}

impl<S: FrameSet> FrameRule for TableRule<S> {
    ghost means = { λ s. counting S.members (handed_out s.table) };

    ghost limit = { MAX_OPEN };

    ghost leaves = { λ s. S.leaving (handed_out s.table) };

    ghost limited = { table_limited };

    ghost within = { λ s. s.table.within };

    ghost lawful = { λ s. S.lawful (handed_out s.table) s.table.lawful };

    fn counts(&self, frame: u32) -> bool {
        S::contains(&self.table, frame)
    }

    fn active_frame(&self) -> u32 {
        self.table.active_frame()
    }

    fn height(&self) -> u32 {
        self.table.height()
    }

    fn open(&mut self) -> Result<u32, Fault> {
        self.table.open()
    }

    fn log_given(&mut self) -> Result<u32, Fault> {
        self.table.log_given()
    }

    fn close(&mut self) -> Result<u32, Fault> {
        self.table.close()
    }
}

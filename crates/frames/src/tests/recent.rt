// A rule that remembers the order of its closings: the open frames count, and so does the one that was closed last.
// It implements `FrameRule` itself: that is what it tests.
ghost use Rattle.std.specs.Prelude.{not};
ghost use Rattle.model.specs.Frames.{is_open};
ghost use Rattle.frames.specs.declared.table.TheConstants.{MAX_OPEN};
ghost use Rattle.frames.specs.Counting.{open_also};
ghost use Rattle.frames.specs.Tables.{handed_out};
ghost use Rattle.frames.specs.OpenFrames.{open_also_lawful, table_limited};

use crate::rule::FrameRule;
use crate::table::{FrameTable, MAX_OPEN};
use model::error::Fault;

#[derive(Drop)]
pub struct Recent {
    table: FrameTable,
    closed: u32,
}

impl Recent {
    pub fn new() -> Recent {
        Recent {
            table: FrameTable::new(),
            closed: 0,
        }
    }
}

impl FrameRule for Recent {
    ghost means = { λ s. open_also s.closed (handed_out s.table) };

    ghost limit = { MAX_OPEN };

    ghost leaves = { λ s f. not (is_open f (handed_out s.table).opened) };

    ghost limited = { table_limited };

    ghost within = { λ s. s.table.within };

    ghost lawful = { λ s. open_also_lawful s.closed (handed_out s.table) };

    fn counts(&self, frame: u32) -> bool {
        self.table.is_open(frame) || frame == self.closed
    }

    fn active_frame(&self) -> u32 {
        self.table.active_frame()
    }

    fn height(&self) -> u32 {
        self.table.height()
    }

    fn open(&mut self) -> Result<u32, Fault> {
        self.table.open()
    }

    fn log_given(&mut self) -> Result<u32, Fault> {
        self.table.log_given()
    }

    fn close(&mut self) -> Result<u32, Fault> {
        let closed = self.table.active_frame();
        let count = self.table.close()?;
        self.closed = closed;
        Ok(count)
    }
}

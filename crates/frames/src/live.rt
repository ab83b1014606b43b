// The rule under which a frame counts while it is open.
ghost use Rattle.frames.specs.Counting.{open_only, not_below};
ghost use Rattle.frames.specs.OpenFrames.{open_only_starts, open_push, open_counted, open_only_closes, open_only_lawful};

use crate::table::FrameTable;
use crate::table_rule::{FrameSet, TableRule};

pub type Live = TableRule<OpenOnly>;

pub struct OpenOnly;

impl FrameSet for OpenOnly {
    ghost members = { λ m. (open_only m).counts };

    ghost leaving = { not_below };

    ghost starts = { open_only_starts };

    ghost opens = { λ m f. open_push f m.opened (record { number = m.next; count = 0 }) };

    ghost logs = { λ m f. open_counted f m.opened };

    ghost closes = { open_only_closes };

    ghost lawful = { λ m _. open_only_lawful m };

    fn contains(table: &FrameTable, frame: u32) -> bool {
        table.is_open(frame)
    }
}

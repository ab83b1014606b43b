// The rule under which every frame counts from the time that it is opened, closed or not.
ghost use Rattle.std.specs.Prelude.{false, refl};

use crate::table::FrameTable;
use crate::table_rule::{FrameSet, TableRule};

pub type Every = TableRule<HandedOut>;

pub struct HandedOut;

impl FrameSet for HandedOut {
    ghost members = { λ m. m.counts };

    ghost leaving = { λ _ _. false };

    ghost starts = { λ f. refl };

    ghost opens = { λ m f. refl };

    ghost logs = { λ m f. refl };

    ghost closes = { λ m f. refl };

    ghost lawful = { λ m l. l };

    fn contains(table: &FrameTable, frame: u32) -> bool {
        table.was_handed_out(frame)
    }
}

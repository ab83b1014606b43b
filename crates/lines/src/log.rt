// The lines about the log: a call that is refused, and what the log came to. Each is appended to a text, and `Lines` has it as a method.
ghost use Rattle.std.specs.Prelude.{◌≡◌, ◌++◌, string_bytes, OnOk};
ghost use Rattle.lines.specs.Text.{refused_text, totals_text};

use crate::text::Lines;
use std::alloc::AllocError;

// The refusal by its number, and the place of the call's head in the log.
pub fn refused_line(out: &mut String, number: u32, place: u32) -> Result<(), AllocError>
    ensures { OnOk result (string_bytes out.new ≡ string_bytes out.old ++ refused_text number place) }
{
    writeln!(out, "refused {number} at {place}")
}

// How many enodes, givens and frames there are.
pub fn totals_line(
    out: &mut String,
    enodes: u32,
    givens: u32,
    frames: u32,
) -> Result<(), AllocError>
    ensures { OnOk result (string_bytes out.new ≡ string_bytes out.old ++ totals_text enodes givens frames) }
{
    writeln!(out, "enodes {enodes} givens {givens} frames {frames}")
}

impl Lines {
    pub fn refused(&mut self, number: u32, place: u32) -> Result<(), AllocError>
        ensures { OnOk result (self.new ≡ self.old ++ refused_text number place) }
    {
        refused_line(&mut self.text, number, place)
    }

    pub fn totals(&mut self, enodes: u32, givens: u32, frames: u32) -> Result<(), AllocError>
        ensures { OnOk result (self.new ≡ self.old ++ totals_text enodes givens frames) }
    {
        totals_line(&mut self.text, enodes, givens, frames)
    }
}

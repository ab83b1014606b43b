// The lines of a question about two enodes. Each is appended to a text, and `Lines` has it as a method.
ghost use Rattle.std.specs.Prelude.{◌≡◌, ◌++◌, string_bytes, OnOk};
ghost use Rattle.lines.specs.Text.{ask_text, same_text, walk_text, path_text, no_path_text};

use crate::parts::{Parts, Tells};
use crate::text::Lines;
use model::items::Step;
use std::alloc::AllocError;

// The question itself.
pub fn ask_line(out: &mut String, from: u32, to: u32) -> Result<(), AllocError>
    ensures { OnOk result (string_bytes out.new ≡ string_bytes out.old ++ ask_text from to) }
{
    writeln!(out, "ask {from} {to}")
}

// The answer where both ends are one enode.
pub fn same_line(out: &mut String, enode: u32) -> Result<(), AllocError>
    ensures { OnOk result (string_bytes out.new ≡ string_bytes out.old ++ same_text enode) }
{
    writeln!(out, "same {enode}")
}

// The enodes of a root walk in order, and the enode that it tells, if any.
pub fn walk_line(out: &mut String, enodes: &[u32], tells: Option<u32>) -> Result<(), AllocError>
    ensures { OnOk result (string_bytes out.new ≡ string_bytes out.old ++ walk_text enodes.now tells) }
{
    writeln!(out, "walk{}{}", Parts(enodes), Tells(tells))
}

// The steps of a path in order, each with its direction and its given.
pub fn path_line(out: &mut String, steps: &[Step]) -> Result<(), AllocError>
    ensures { OnOk result (string_bytes out.new ≡ string_bytes out.old ++ path_text steps.now) }
{
    writeln!(out, "path{}", Parts(steps))
}

// The answer where no path joins the two.
pub fn no_path_line(out: &mut String) -> Result<(), AllocError>
    ensures { OnOk result (string_bytes out.new ≡ string_bytes out.old ++ no_path_text) }
{
    writeln!(out, "no path")
}

impl Lines {
    pub fn ask(&mut self, from: u32, to: u32) -> Result<(), AllocError>
        ensures { OnOk result (self.new ≡ self.old ++ ask_text from to) }
    {
        ask_line(&mut self.text, from, to)
    }

    pub fn same(&mut self, enode: u32) -> Result<(), AllocError>
        ensures { OnOk result (self.new ≡ self.old ++ same_text enode) }
    {
        same_line(&mut self.text, enode)
    }

    pub fn walk(&mut self, enodes: &[u32], tells: Option<u32>) -> Result<(), AllocError>
        ensures { OnOk result (self.new ≡ self.old ++ walk_text enodes.now tells) }
    {
        walk_line(&mut self.text, enodes, tells)
    }

    pub fn path(&mut self, steps: &[Step]) -> Result<(), AllocError>
        ensures { OnOk result (self.new ≡ self.old ++ path_text steps.now) }
    {
        path_line(&mut self.text, steps)
    }

    pub fn no_path(&mut self) -> Result<(), AllocError>
        ensures { OnOk result (self.new ≡ self.old ++ no_path_text) }
    {
        no_path_line(&mut self.text)
    }
}

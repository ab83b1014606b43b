// The parts of a line that repeat or may be missing, as they are printed.
ghost use Rattle.std.specs.Prelude.{ℕ, List, Some};
ghost use Rattle.std.specs.List.{flat_map};
ghost use Rattle.std.specs.Fmt.{WritesOnOk};
ghost use Rattle.lines.specs.Text.{enode_text, tells_text, step_text};

use model::items::Step;
use std::fmt;

// An element of a list, as it is printed. No `Display`, which is std's, can stand here for model's `Step`.
pub(crate) trait Part {
    ghost text: { Self → List ℕ };

    fn print<W: fmt::Write>(&self, f: &mut fmt::Formatter<W>) -> fmt::Result
        ensures { WritesOnOk W.write_str_gives f.old result (text self.now) f.new };
}

// A blank and the enode.
impl Part for u32 {
    ghost text = { enode_text };

    fn print<W: fmt::Write>(&self, f: &mut fmt::Formatter<W>) -> fmt::Result {
        write!(f, " {self}")
    }
}

// A blank, the direction, and the given by its number.
impl Part for Step {
    ghost text = { step_text };

    fn print<W: fmt::Write>(&self, f: &mut fmt::Formatter<W>) -> fmt::Result {
        let sign = if self.forward { "+" } else { "-" };
        write!(f, " {sign}g{}", self.given)
    }
}

// The elements of a list, one behind another.
#[derive(Drop)]
pub(crate) struct Parts<'a, T>(pub(crate) &'a [T]);

impl<T: Part> fmt::Display for Parts<'_, T> {
    ghost output = { λ parts. Some (flat_map T.Part.text parts.0.now) };

    fn fmt<W: fmt::Write>(&self, f: &mut fmt::Formatter<W>) -> fmt::Result {
        for part in self.0 {
            part.print(f)?;
        }
        Ok(())
    }
}

// The enode that a walk tells, if any.
#[derive(Drop)]
pub(crate) struct Tells(pub(crate) Option<u32>);

impl fmt::Display for Tells {
    ghost output = { λ tells. Some (tells_text tells.0) };

    fn fmt<W: fmt::Write>(&self, f: &mut fmt::Formatter<W>) -> fmt::Result {
        match self.0 {
            Some(told) => write!(f, " tells {told}"),
            None => Ok(()),
        }
    }
}

// Why a call is refused, and where in a question.
ghost use Rattle.std.specs.Prelude.{◌≡◌, None};
ghost use Rattle.model.specs.Refusals.{asked as asked_for, number_of, told};

use crate::items::{Argument, Pair};

// The tables that can be full.
#[derive(Clone, Copy, Debug, PartialEq, Eq)]
pub enum TableName {
    Enodes,
    Givens,
    Arguments,
    FrameCount,
}

#[derive(Clone, Copy, Debug, PartialEq, Eq)]
pub enum Cause {
    UnknownEnode(u32),
    NotFirstEnd(u32),
    Full(TableName),
    FrameLimit(u32),
    OnlyBase,
    Short(usize),
    Unreadable(u32),
}

impl Cause {
    // The number by which a refusal is told. A method, and no `From`: the number does not hold the refusal's value.
    pub fn number(&self) -> u32
        ensures { result ≡ number_of self.now }
    {
        match self {
            Cause::UnknownEnode(_) => 1,
            Cause::NotFirstEnd(_) => 3,
            Cause::Full(_) => 4,
            Cause::FrameLimit(_) => 7,
            Cause::OnlyBase => 8,
            Cause::Short(_) => 9,
            Cause::Unreadable(_) => 10,
        }
    }
}

// One fault type for every layer: the cause, the pair that was asked for, how deep its question was nested, and the argument of the outermost question that it came from.
#[derive(Clone, Copy, Debug, PartialEq, Eq)]
pub struct Fault {
    pub cause: Cause,
    pub pair: Option<Pair>,
    pub level: u32,
    pub argument: Option<Argument>,
}

impl Fault {
    // A refusal outside of questions.
    pub fn new(cause: Cause) -> Fault
        ensures { result ≡ record { cause = cause; pair = None; level = 0; argument = None } }
    {
        Fault {
            cause,
            pair: None,
            level: 0,
            argument: None,
        }
    }
}

// The same answer of the question for a pair, which its refusal names.
pub fn asked(pair: Pair, answer: Result<(), Fault>) -> Result<(), Fault>
    ensures { told result ≡ asked_for pair (told answer) }
{
    answer.map_err(|fault| Fault {
        pair: Some(pair),
        ..fault
    })
}

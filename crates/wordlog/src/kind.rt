// The kinds of records and of givens, by their numbers in a log.
ghost use Rattle.wordlog.specs.Kinds.{record_number, given_number, Names};

use crate::call::UnknownNumber;

// What stands behind a head.
#[derive(Clone, Copy, Debug, PartialEq, Eq)]
pub(crate) enum RecordKind {
    Enode = 1,
    Given = 2,
    Open = 3,
    Close = 4,
    Ask = 5,
}

// Where a given came from.
#[derive(Clone, Copy, Debug, PartialEq, Eq)]
pub(crate) enum GivenKind {
    Root = 0,
    Literal = 1,
    Congruence = 2,
    Theory = 3,
    Axiom = 4,
    Unknown = 5,
}

impl RecordKind {
    const ALL: [RecordKind; 5] = [
        RecordKind::Enode,
        RecordKind::Given,
        RecordKind::Open,
        RecordKind::Close,
        RecordKind::Ask,
    ];
}

impl GivenKind {
    const ALL: [GivenKind; 6] = [
        GivenKind::Root,
        GivenKind::Literal,
        GivenKind::Congruence,
        GivenKind::Theory,
        GivenKind::Axiom,
        GivenKind::Unknown,
    ];
}

// Two impls alike: one body for both needs a trait with each list and number, and is longer.
impl TryFrom<u32> for RecordKind {
    type Error = UnknownNumber;

    ghost try_from_gives = { Names record_number };

    fn try_from(number: u32) -> Result<Self, UnknownNumber> {
        RecordKind::ALL
            .iter()
            .copied()
            .find(|kind| *kind as u32 == number)
            .ok_or(UnknownNumber(number))
    }
}

impl TryFrom<u32> for GivenKind {
    type Error = UnknownNumber;

    ghost try_from_gives = { Names given_number };

    fn try_from(number: u32) -> Result<Self, UnknownNumber> {
        GivenKind::ALL
            .iter()
            .copied()
            .find(|kind| *kind as u32 == number)
            .ok_or(UnknownNumber(number))
    }
}

// The shapes of records: what stands behind a head of each kind.
ghost use Rattle.std.specs.Prelude.{◌≡◌};
ghost use Rattle.wordlog.specs.Calls.{front_as, given_as, permission};
ghost use Rattle.wordlog.specs.Kinds.{record_number, given_number};
ghost use Rattle.wordlog.specs.Reading.{given_from, congruence_from, given_front, ask_front, front_of};

use crate::call::{Call, TransEqAllowed};
use crate::kind::{GivenKind, RecordKind};
use crate::word::{COUNTS, all_plain, is_plain};
use model::items::{ArgPairs, EqualityExpl};

// A congruence has at least one argument pair, and no odd last word.
fn congruence<'a>(words: &'a [u32]) -> Option<EqualityExpl<'a>>
    ensures { given_as result ≡ congruence_from words.now }
{
    let [from, to, arguments @ ..] = words else {
        return None;
    };
    if arguments.is_empty() || arguments.len() % 2 != 0 {
        return None;
    }
    Some(EqualityExpl::Congruence {
        from: *from,
        arg_eqs: ArgPairs { words: arguments },
        to: *to,
    })
}

// The given of that kind with these plain words: as many as it has, and no more.
fn given_of<'a>(kind: GivenKind, words: &'a [u32]) -> Option<EqualityExpl<'a>>
    ensures { given_as result ≡ given_from (given_number kind) words.now }
{
    match (kind, words) {
        (GivenKind::Root, &[id]) => Some(EqualityExpl::Root { id }),
        (GivenKind::Literal, &[from, to, eq]) => Some(EqualityExpl::Literal { from, eq, to }),
        (GivenKind::Congruence, _) => congruence(words),
        (GivenKind::Theory, &[from, to, theory]) => Some(EqualityExpl::Theory { from, theory, to }),
        (GivenKind::Axiom, &[from, to]) => Some(EqualityExpl::Axiom { from, to }),
        (GivenKind::Unknown, &[from, to, kind]) => Some(EqualityExpl::Unknown { kind, from, to }),
        _ => None,
    }
}

// Behind a question's head stand its two enodes.
fn read_ask<'a>(allowed: TransEqAllowed, rest: &'a [u32]) -> Option<(Call<'a>, usize)>
    ensures { front_as result ≡ ask_front (permission allowed) rest.now }
{
    let &[from, to, ..] = rest else {
        return None;
    };
    if !is_plain(from) || !is_plain(to) {
        return None;
    }
    Some((Call::Ask { allowed, from, to }, 3))
}

// The words that the head counts have to be there, and to be plain.
fn read_given<'a>(kind: GivenKind, count: usize, rest: &'a [u32]) -> Option<(Call<'a>, usize)>
    ensures { front_as result ≡ given_front (given_number kind) count rest.now }
{
    let words = rest.get(..count)?;
    if !all_plain(words) {
        return None;
    }
    let expl = given_of(kind, words)?;
    Some((Call::Given { expl }, count + 1))
}

// The call whose head has that kind and payload, and these words behind it.
pub(crate) fn read_record<'a>(
    kind: RecordKind,
    payload: u32,
    rest: &'a [u32],
) -> Option<(Call<'a>, usize)>
    ensures { front_as result ≡ front_of (record_number kind) payload rest.now }
{
    match kind {
        RecordKind::Enode => Some((Call::Enode { owner: payload }, 1)),
        RecordKind::Given => {
            let kind = GivenKind::try_from(payload / COUNTS).ok()?;
            read_given(kind, (payload % COUNTS) as usize, rest)
        }
        RecordKind::Open if payload == 0 => Some((Call::Open, 1)),
        RecordKind::Close if payload == 0 => Some((Call::Close, 1)),
        RecordKind::Open | RecordKind::Close => None,
        RecordKind::Ask => read_ask(TransEqAllowed::try_from(payload).ok()?, rest),
    }
}

// Writes the calls of a log.
ghost use Rattle.std.specs.Prelude.{◌≡◌, ◌^◌, ◌<◌, ◌∷◌, ◌++◌, length};
ghost use Rattle.model.specs.Format.{AllPlain, head};
ghost use Rattle.wordlog.specs.Calls.{call_of, call_as, given_of, congruence};
ghost use Rattle.wordlog.specs.Kinds.{record_number, given_number};
ghost use Rattle.wordlog.specs.Writing.{Puts, PutsGiven, Writes, ReadsBack};

use crate::call::Call;
use crate::kind::{GivenKind, RecordKind};
use crate::reader::read_call;
use crate::word::{COUNTS, PAYLOADS, all_plain, is_plain};
use model::items::{ArgPairs, EqualityExpl};

// Writes a head and the plain words of two slices behind it.
fn write_record(head: u32, first: &[u32], second: &[u32], out: &mut [u32]) -> Option<usize>
    ensures { Puts (AllPlain (first.now ++ second.now)) (head ∷ first.now ++ second.now) out.old result out.new }
{
    let middle = 1 + first.len();
    let end = middle + second.len();
    if out.len() < end || !all_plain(first) || !all_plain(second) {
        return None;
    }
    out[0] = head;
    out[1..middle].copy_from_slice(first);
    out[middle..end].copy_from_slice(second);
    Some(end)
}

// The head of a record of that kind.
fn head(kind: RecordKind, payload: u32) -> u32
    requires { payload < 2 ^ 28 }
    ensures { result ≡ head (record_number kind) payload }
{
    kind as u32 * PAYLOADS + payload
}

// Writes a given of that kind: a head that counts the words of both slices, and the words.
fn write_words(kind: GivenKind, first: &[u32], second: &[u32], out: &mut [u32]) -> Option<usize>
    ensures { PutsGiven (given_number kind) (first.now ++ second.now) out.old result out.new }
{
    let count = first.len() + second.len();
    if count >= COUNTS as usize {
        return None;
    }
    let payload = kind as u32 * COUNTS + count as u32;
    write_record(head(RecordKind::Given, payload), first, second, out)
}

// An odd last word is in no pair, and is not written.
fn write_congruence(from: u32, to: u32, arguments: ArgPairs<'_>, out: &mut [u32]) -> Option<usize>
    ensures { Writes (congruence from to arguments.entry.words.now) out.old result out.new }
{
    let count = arguments.words.len() / 2 * 2;
    if count == 0 {
        return None;
    }
    write_words(
        GivenKind::Congruence,
        &[from, to],
        &arguments.words[..count],
        out,
    )
}

fn write_given(expl: &EqualityExpl<'_>, out: &mut [u32]) -> Option<usize>
    ensures { Writes (given_of expl.now) out.old result out.new }
{
    match *expl {
        EqualityExpl::Root { id } => write_words(GivenKind::Root, &[id], &[], out),
        EqualityExpl::Literal { from, eq, to } => {
            write_words(GivenKind::Literal, &[from, to, eq], &[], out)
        }
        EqualityExpl::Congruence { from, arg_eqs, to } => write_congruence(from, to, arg_eqs, out),
        EqualityExpl::Theory { from, theory, to } => {
            write_words(GivenKind::Theory, &[from, to, theory], &[], out)
        }
        EqualityExpl::Axiom { from, to } => write_words(GivenKind::Axiom, &[from, to], &[], out),
        EqualityExpl::Unknown { kind, from, to } => {
            write_words(GivenKind::Unknown, &[from, to, kind], &[], out)
        }
    }
}

// Writes a call's words at the front of `out`, and answers how many. None, with nothing written: no log can hold the call, or `out` is too short.
pub fn write_call(call: &Call<'_>, out: &mut [u32]) -> Option<usize>
    ensures { Writes (call_of call.now) out.old result out.new }
{
    match *call {
        Call::Enode { owner } if !is_plain(owner) => None,
        Call::Enode { owner } => write_record(head(RecordKind::Enode, owner), &[], &[], out),
        Call::Given { expl } => write_given(&expl, out),
        Call::Open => write_record(head(RecordKind::Open, 0), &[], &[], out),
        Call::Close => write_record(head(RecordKind::Close, 0), &[], &[], out),
        Call::Ask { allowed, from, to } => {
            write_record(head(RecordKind::Ask, allowed.into()), &[from, to], &[], out)
        }
    }
}

// Writes a call and reads it back from the same words: the call that was written.
pub fn written_reads_back<'a>(call: &Call<'_>, out: &'a mut [u32]) -> Option<Call<'a>>
    ensures { ReadsBack (call_of call.now) (length out.old) (call_as result) }
{
    write_call(call, out)?;
    read_call(out).map(|(back, _)| back)
}

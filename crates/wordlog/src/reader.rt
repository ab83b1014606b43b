// Reads the calls of a log.
ghost use Rattle.std.specs.Prelude.{◌≡◌, ◌≤◌, length};
ghost use Rattle.wordlog.specs.declared.reader.TheConstants.{LIMIT};
ghost use Rattle.wordlog.specs.Calls.{front_as};
ghost use Rattle.wordlog.specs.Reading.{front, Accepts, Complete};
ghost use Rattle.wordlog.specs.Log.{next, next_as, Within, moved, answer_as, words_read, ragged_read};

use crate::call::Call;
use crate::kind::RecordKind;
use crate::shapes::read_record;
use crate::word::PAYLOADS;
use model::error::{Cause, Fault};

// The call at the front of the words and how many of them it takes. None: no call that a log can hold is written there.
// Inlined: called apart, it writes the answer None anew at each word that it tests.
#[inline(always)]
pub fn read_call<'a>(words: &'a [u32]) -> Option<(Call<'a>, usize)>
    ensures is { front_as result ≡ front words.now }
    ensures accepts { Accepts words.now (front_as result) }
    ensures complete { Complete words.now (front_as result) }
{
    let [head, rest @ ..] = words else {
        return None;
    };
    let kind = RecordKind::try_from(*head / PAYLOADS).ok()?;
    read_record(kind, *head % PAYLOADS, rest)
}

// No more words of a log are read.
const LIMIT: usize = 16_384;

// The words of a log, and whether one to three bytes are left over behind them.
#[derive(Clone, Copy, Debug, PartialEq, Eq)]
pub struct Log<'a> {
    pub words: &'a [u32],
    pub ragged: bool,
}

impl<'a> Log<'a> {
    // The call at a place of the words, and the place behind it.
    fn call_at(self, at: usize) -> Result<(Option<Call<'a>>, usize), Fault>
        requires { (at ≤ length self.words.now) × (length self.words.now ≤ LIMIT) }
        ensures is { next_as result ≡ next self.entry.words.now self.entry.ragged at }
        ensures within { Within result (length self.entry.words.now) }
    {
        let refused = Fault::new(Cause::Unreadable(at as u32));
        if at < self.words.len() {
            // By `let .. else`: by `ok_or` and `?` each call takes more instructions.
            let Some((call, taken)) = read_call(&self.words[at..]) else {
                return Err(refused);
            };
            return Ok((Some(call), at + taken));
        }
        if self.ragged {
            Err(refused)
        } else {
            Ok((None, at))
        }
    }
}

// Reads a log call by call, from the place of the next one.
#[derive(Debug, Drop)]
pub struct Reader<'a> {
    log: Log<'a>,
    at: usize,
    ghost short: { length log.words.now ≤ LIMIT },
    ghost within: { at ≤ length log.words.now },
}

impl<'a> Reader<'a> {
    // Keeps the words within the limit; what is left over behind the limit is not read.
    pub fn new(log: Log<'a>) -> Reader<'a>
        ensures words { result.log.words.now ≡ words_read log.entry.words.now }
        ensures ragged { result.log.ragged ≡ ragged_read log.entry.words.now log.entry.ragged }
        ensures at { result.at ≡ 0 }
    {
        let count = log.words.len().min(LIMIT);
        Reader {
            log: Log {
                words: &log.words[..count],
                ragged: log.words.len() < LIMIT && log.ragged,
            },
            at: 0,
        }
    }

    // The place of the next word.
    pub fn place(&self) -> u32
        ensures { result ≡ self.now.at }
    {
        self.at as u32
    }

    // The next call; None at the end of the log. A fault leaves the reader as it is.
    // No Iterator: it would not end after a fault.
    pub fn next_call(&mut self) -> Result<Option<Call<'a>>, Fault>
        ensures outcome { (answer_as result, self.new.at) ≡ moved self.old.at (next self.old.log.words.now self.old.log.ragged self.old.at) }
        ensures words { self.new.log.words.now ≡ self.old.log.words.now }
        ensures ragged { self.new.log.ragged ≡ self.old.log.ragged }
    {
        let (call, behind) = self.log.call_at(self.at)?;
        self.at = behind;
        Ok(call)
    }
}

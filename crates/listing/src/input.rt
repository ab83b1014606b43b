// Reads a log: its whole words, and whether bytes are left over behind them.
ghost use Rattle.std.specs.Prelude.{◌≡◌, ◌%◌, ◌≤◌, not, length, IfOk, ◌==◌};
ghost use Rattle.listing.specs.declared.input.TheConstants.{MAX_BYTES};
ghost use Rattle.wordlog.specs.Bytes.{words_in};

use std::alloc::{AllocError, Global};
use std::io;
use std::io::Read;
use wordlog::bytes::words_of;
use wordlog::reader::Log;

// No more bytes are read; a word has four.
const MAX_BYTES: usize = 65_536;

// A log that owns its words.
#[derive(Drop)]
pub struct Input {
    words: Vec<u32>,
    ragged: bool,
}

impl Input {
    pub(crate) fn log(&self) -> Log<'_>
        ensures words { result.words.now ≡ self.now.words.items }
        ensures ragged { result.ragged ≡ self.now.ragged }
    {
        Log {
            words: &self.words,
            ragged: self.ragged,
        }
    }
}

// The words that these bytes make; one to three bytes left over are in none.
fn whole_words(bytes: &[u8], heap: Global) -> Result<Vec<u32>, AllocError>
    ensures { IfOk result (λ words. words.items ≡ words_in bytes.now) }
{
    let mut words = vec![in heap; 0u32; bytes.len() / 4]?;
    words_of(bytes, &mut words);
    Ok(words)
}

fn input_of(bytes: &[u8], heap: Global) -> Result<Input, AllocError>
    ensures { IfOk result (λ input. (input.words.items ≡ words_in bytes.now) × (input.ragged ≡ not (length bytes.now % 4 == 0))) }
{
    Ok(Input {
        words: whole_words(bytes, heap)?,
        ragged: bytes.len() % 4 != 0,
    })
}

// The bytes of a log, as many as are read. There is room for one more, so that the read that finds the end needs none.
fn read_bytes(input: &mut impl Read, heap: Global) -> io::Result<Vec<u8>>
    ensures { IfOk result (λ bytes. length bytes.items ≤ MAX_BYTES) }
{
    let mut bytes = Vec::with_capacity(heap, MAX_BYTES + 1)?;
    input.take(MAX_BYTES as u64).read_to_end(&mut bytes)?;
    // `take` bounds each read, and std says nothing of their sum.
    bytes.truncate(MAX_BYTES);
    Ok(bytes)
}

pub fn read_log(input: &mut impl Read, heap: Global) -> io::Result<Input> {
    let bytes = read_bytes(input, heap)?;
    Ok(input_of(&bytes, heap)?)
}

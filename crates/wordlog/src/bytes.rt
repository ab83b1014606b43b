// The words of a log from its bytes.
ghost use Rattle.std.specs.Prelude.{◌≡◌, ◌*◌, ◌/◌, ◌<◌, ◌≤◌, length, MatchOption};
ghost use Rattle.wordlog.specs.Bytes.{word_from, words_in, fitting, filled};

// The lowest byte stands first.
fn word_of(four: &[u8; 4]) -> u32
    ensures { result ≡ word_from four.now 0 }
{
    u32::from_le_bytes(*four)
}

// The word at a place; None past the last whole word.
pub fn word_at(bytes: &[u8], i: usize) -> Option<u32>
    ensures { MatchOption result (length bytes.now / 4 ≤ i) (λ w. (i < length bytes.now / 4) × (w ≡ word_from bytes.now (4 * i))) }
{
    let (fours, _) = bytes.as_chunks::<4>();
    let four = fours.get(i)?;
    Some(word_of(four))
}

// Fills `out` from its front with the whole words, as many as there are places, and answers how many.
pub fn words_of(bytes: &[u8], out: &mut [u32]) -> usize
    ensures count { result ≡ fitting (words_in bytes.now) out.old }
    ensures filled { out.new ≡ filled (words_in bytes.now) out.old }
{
    let (fours, _) = bytes.as_chunks::<4>();
    let count = fours.len().min(out.len());
    // `out` is written by index: a proof does not see what a `zip` over iter_mut writes.
    for (i, four) in fours[..count].iter().enumerate() {
        out[i] = word_of(four);
    }
    count
}

// The layout of words, and the test for plain ones.
ghost use Rattle.std.specs.Prelude.{◌≡◌};
ghost use Rattle.wordlog.specs.Reading.{plain, all_plain};

// A head is its kind times this and its payload; a word below this is plain.
pub(crate) const PAYLOADS: u32 = 0x1000_0000;

// A given's payload is its kind times this and the number of words behind the head.
pub(crate) const COUNTS: u32 = 0x100_0000;

pub(crate) fn is_plain(word: u32) -> bool
    ensures { result ≡ plain word }
{
    word < PAYLOADS
}

pub(crate) fn all_plain(words: &[u32]) -> bool
    ensures { result ≡ all_plain words.now }
{
    words.iter().all(|word| is_plain(*word))
}

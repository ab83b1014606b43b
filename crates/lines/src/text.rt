// A listing as it is written, line by line.
ghost use Rattle.std.specs.Prelude.{◌≡◌, ℕ, List, [], string_bytes};

use std::alloc::Global;
use std::marker::Model;

#[derive(Drop)]
pub struct Lines {
    pub(crate) text: String,
}

impl Model for Lines {
    ghost Value = { List ℕ };

    ghost view = { λ l. string_bytes l.text };
}

impl Lines {
    pub fn new(heap: Global) -> Lines
        ensures { result ≡ [] }
    {
        Lines {
            text: String::new(heap),
        }
    }

    pub fn into_text(self) -> String
        ensures { string_bytes result ≡ self }
    {
        let Lines { text } = self;
        text
    }
}

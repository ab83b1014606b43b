// The tables that a question works on, and what an answer keeps in them: arrays, since the page on the listing fixes how much it holds.
ghost use Rattle.std.specs.Prelude.{◌≤◌, IfSome};
ghost use Rattle.std.proofs.Props.{props};
ghost use Rattle.listing.specs.declared.scratch.TheConstants.{ENODES};

use model::items::{RootWalk, Step};

// How many enodes the tables of a listing hold.
pub const ENODES: usize = 128;

// The root walks of a question's two enodes, and how many steps its path has, if there is one. Their enodes and steps stand in the scratch.
#[derive(Clone, Copy)]
pub struct Walks {
    pub first: RootWalk,
    pub second: RootWalk,
    pub steps: Option<usize>,
    ghost first_stands: { first.len ≤ ENODES },
    ghost second_stands: { second.len ≤ ENODES },
    ghost steps_stand: { IfSome steps (λ n. n ≤ ENODES) } by { Prim.hlevel props },
}

#[derive(Drop)]
pub struct Scratch {
    pub marks: [u8; ENODES],
    pub walks: [u32; 2 * ENODES],
    pub first: [u32; ENODES],
    pub second: [u32; ENODES],
    pub steps: [Step; ENODES],
}

impl Scratch {
    pub fn new() -> Scratch {
        Scratch {
            marks: [0; ENODES],
            walks: [0; 2 * ENODES],
            first: [0; ENODES],
            second: [0; ENODES],
            steps: [Step::default(); ENODES],
        }
    }
}

// A given's record. The givens logged under one enode form a list, newest first; they go by number, since the tables are lent and there is no heap.

// Where a given came from. A congruence has `len` argument pairs from the place `start` on. No generic enum with `EqualityExpl`, which has the ends and keeps the original's cases.
#[derive(Clone, Copy, Default, PartialEq, Eq, Debug)]
pub enum Kind {
    #[default]
    Root,
    Literal(u32),
    Congruence { start: u32, len: u32 },
    Theory(u32),
    Axiom,
    Unknown(u32),
}

#[derive(Clone, Copy, Default, PartialEq, Eq, Debug)]
pub struct Given {
    pub from: u32,
    pub to: u32,
    pub frame: u32,
    pub kind: Kind,
    pub older: Option<u32>,
}

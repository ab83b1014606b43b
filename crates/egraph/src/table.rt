// A table that the caller lends, and how many of its records are on file: there is no heap, so that it is no Vec.
ghost use Rattle.std.specs.Prelude.{◌≡◌, ◌+◌, ◌<◌, ◌≤◌, min, [], ◌∷◌, ◌++◌, length, nat_le, slice_set};
ghost use Rattle.model.specs.Refusals.{full, told};
ghost use Rattle.model.specs.Checks.{require};

use crate::checks::require;
use model::error::{Cause, Fault, TableName};

// No more than `LIMIT` records go in, however long the rows are.
#[derive(Drop)]
pub(crate) struct Table<'a, T, const LIMIT: usize> {
    pub(crate) rows: &'a mut [T],
    pub(crate) len: usize,
    ghost in_rows: { len ≤ length rows.now },
    ghost in_limit: { len ≤ LIMIT },
}

impl<'a, T: Copy, const LIMIT: usize> Table<'a, T, LIMIT> {
    ghost use Rattle.egraph.specs.Table.{listed, places};

    // Nothing is on file, whatever the rows hold.
    pub(crate) fn empty(rows: &'a mut [T]) -> Table<'a, T, LIMIT>
        ensures len { result.len ≡ 0 }
        ensures rows { result.rows.now ≡ rows.old }
    {
        Table { rows, len: 0 }
    }

    // The records on file.
    pub(crate) fn filed(&self) -> &[T]
        ensures { result.now ≡ listed self.now }
    {
        &self.rows[..self.len]
    }

    // Whether that many records more go in.
    pub(crate) fn check_room(&self, more: usize, name: TableName) -> Result<(), Fault>
        ensures { told result ≡ require (nat_le (length (listed self.now) + more) (min LIMIT (places self.now))) (full name) }
    {
        let fits = more <= LIMIT - self.len && more <= self.rows.len() - self.len;
        require(fits, Cause::Full(name))
    }

    // Another record in the place of one on file.
    #[tactic(auto, using(crate::proofs::Places::filing))]
    pub(crate) fn put(&mut self, i: usize, row: T)
        requires { i < self.old.len }
        ensures len { self.new.len ≡ self.old.len }
        ensures places { places self.new ≡ places self.old }
        ensures listed { listed self.new ≡ slice_set (listed self.old) i row }
    {
        self.rows[i] = row;
    }

    // One record more, at the end.
    #[tactic(auto, using(crate::proofs::Places::filing))]
    pub(crate) fn push(&mut self, row: T)
        requires { self.old.len + 1 ≤ min LIMIT (places self.old) }
        ensures len { self.new.len ≡ self.old.len + 1 }
        ensures places { places self.new ≡ places self.old }
        ensures listed { listed self.new ≡ listed self.old ++ (row ∷ []) }
    {
        self.rows[self.len] = row;
        self.len += 1;
    }
}

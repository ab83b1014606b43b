// The givens under one enode with their numbers, newest first.
ghost use Rattle.std.specs.Prelude.{◌≤◌, length};
ghost use Rattle.std.specs.Iterator.{YieldsFirst, item_count};
ghost use Rattle.egraph.specs.Records.{past};
ghost use Rattle.egraph.specs.GivensUnder.{OlderNamed, givens_back};

use crate::equality::Given;

// `next` is the number of the next one.
#[derive(Drop)]
pub(crate) struct GivensUnder<'a> {
    pub(crate) rows: &'a [Given],
    pub(crate) next: Option<u32>,
    ghost next_filed: { past next ≤ length rows.now },
    ghost older_named: { OlderNamed rows.now },
}

impl<'a> Iterator for GivensUnder<'a> {
    type Item = (u32, Given);

    ghost next_gives = { YieldsFirst (λ s. givens_back s.rows.now s.next) };

    ghost remaining = { item_count (λ s. givens_back s.rows.now s.next) };

    fn next(&mut self) -> Option<(u32, Given)> {
        let number = self.next?;
        let given = self.rows[number as usize];
        self.next = given.older;
        Some((number, given))
    }
}

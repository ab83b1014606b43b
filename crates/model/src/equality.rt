// What a given tells of itself.
ghost use Rattle.std.specs.Prelude.{◌≡◌, ◌/◌, [], ◌∷◌, length, MatchOption};
ghost use Rattle.model.specs.Records.{args_of};
ghost use Rattle.std.specs.Iterator.{YieldsFirst, item_count};
ghost use Rattle.model.specs.Explanations.{pairs_of, pairs_left, from_of, to_of, kind_of};

use crate::items::{ArgPairs, EqualityExpl, Pair, Pairs};

impl<'a> EqualityExpl<'a> {
    // Its two ends, in order.
    pub fn ends(self) -> Pair
        ensures { result ≡ record { from = from_of self.entry; to = to_of self.entry } }
    {
        match self {
            EqualityExpl::Root { id } => Pair { from: id, to: id },
            EqualityExpl::Literal { from, to, .. }
            | EqualityExpl::Congruence { from, to, .. }
            | EqualityExpl::Theory { from, to, .. }
            | EqualityExpl::Axiom { from, to }
            | EqualityExpl::Unknown { from, to, .. } => Pair { from, to },
        }
    }

    pub fn from(self) -> u32
        ensures { result ≡ from_of self.entry }
    {
        self.ends().from
    }

    pub fn to(self) -> u32
        ensures { result ≡ to_of self.entry }
    {
        self.ends().to
    }

    // The argument pairs of a congruence; any other given has none.
    pub fn arg_eqs(self) -> ArgPairs<'a>
        ensures { pairs_of result.words.now ≡ args_of (kind_of self.entry) }
    {
        match self {
            EqualityExpl::Congruence { arg_eqs, .. } => arg_eqs,
            _ => ArgPairs { words: &[] },
        }
    }
}

impl<'a> ArgPairs<'a> {
    #[tactic(auto, using(crate::proofs::ArgPairs::pairs_length))]
    pub fn len(self) -> usize
        ensures { result ≡ length (pairs_of self.entry.words.now) }
    {
        self.words.len() / 2
    }

    // The first pair and those behind it, if there is one.
    pub fn split_first(self) -> Option<(Pair, ArgPairs<'a>)>
        ensures { MatchOption result (pairs_of self.entry.words.now ≡ []) (λ p. pairs_of self.entry.words.now ≡ p.0 ∷ pairs_of p.1.words.now) }
    {
        let [from, to, rest @ ..] = self.words else {
            return None;
        };
        let first = Pair {
            from: *from,
            to: *to,
        };
        Some((first, ArgPairs { words: rest }))
    }
}

impl Iterator for Pairs<'_> {
    type Item = Pair;

    ghost next_gives = { YieldsFirst pairs_left };

    ghost remaining = { item_count pairs_left };

    fn next(&mut self) -> Option<Pair> {
        let (first, behind) = self.rest.split_first()?;
        self.rest = behind;
        Some(first)
    }
}

impl<'a> IntoIterator for ArgPairs<'a> {
    type Item = Pair;

    type IntoIter = Pairs<'a>;

    ghost into_iter_gives = { λ arguments pairs. pairs.rest.words.now ≡ arguments.words.now };

    fn into_iter(self) -> Pairs<'a> {
        Pairs { rest: self }
    }
}

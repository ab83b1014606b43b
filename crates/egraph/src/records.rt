// The tables of a case: enodes, givens and their argument pairs.
use crate::enode::ENode;
use crate::equality::Given;
use crate::table::Table;
use model::items::Pair;

// How many records of each kind a case has at the most.
pub(crate) const ENODES: usize = 65536;

pub(crate) const GIVENS: usize = 65536;

pub(crate) const ARGUMENTS: usize = 131072;

#[derive(Drop)]
pub(crate) struct Records<'a> {
    pub(crate) enodes: Table<'a, ENode, ENODES>,
    pub(crate) givens: Table<'a, Given, GIVENS>,
    pub(crate) arguments: Table<'a, Pair, ARGUMENTS>,
}

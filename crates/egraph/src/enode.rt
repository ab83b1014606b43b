// An enode's record: the term that it is of, the frame that it was logged in, and the newest given logged under it.
#[derive(Clone, Copy, Default, PartialEq, Eq, Debug)]
pub struct ENode {
    pub owner: u32,
    pub frame: u32,
    pub newest: Option<u32>,
}

// Where two walks of a pair join: how long each is, and how long their common tail.
ghost use Rattle.std.specs.Prelude.{◌≡◌, ◌-◌, ◌≤◌};
ghost use Rattle.model.specs.Paths.{shared};

#[derive(Drop)]
pub(crate) struct SimplePath {
    pub(crate) from_to_root: usize,
    pub(crate) to_to_root: usize,
    pub(crate) shared: usize,
    ghost in_first: { shared ≤ from_to_root },
    ghost in_second: { shared ≤ to_to_root },
}

impl SimplePath {
    // How many steps go up, to the first enode of the common tail.
    pub(crate) fn rising(&self) -> usize
        ensures { result ≡ self.now.from_to_root - self.now.shared }
    {
        self.from_to_root - self.shared
    }

    // And how many go down from there. Two methods, as one over the field would be longer.
    pub(crate) fn falling(&self) -> usize
        ensures { result ≡ self.now.to_to_root - self.now.shared }
    {
        self.to_to_root - self.shared
    }
}

// How many enodes two walks share at their ends.
pub(crate) fn common_tail(first: &[u32], second: &[u32]) -> usize
    ensures { result ≡ shared first.now second.now }
{
    first
        .iter()
        .rev()
        .zip(second.iter().rev())
        .take_while(|(a, b)| **a == **b)
        .count()
}

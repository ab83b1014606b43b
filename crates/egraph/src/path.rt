// The path of a pair: up one enode's root walk to the first enode that both walks share, then down the other's.
ghost use Rattle.std.specs.Prelude.{◌≡◌, ◌+◌, ◌-◌, ◌*◌, ◌<◌, ◌≤◌, length, Some, None, MatchOption};
ghost use Rattle.model.specs.Paths.{path};
ghost use Rattle.model.specs.Refusals.{told};
ghost use Rattle.model.specs.Checks.{and_then};
ghost use Rattle.model.specs.WalkCalls.{cleared, long_enough, pair_checks, path_checks, check_eq_call, path_call, told_path};
ghost use Rattle.egraph.specs.Graph.{links_on_file, size_on_file, LawfulWalks};
ghost use Rattle.egraph.specs.SimplePath.{FoundPath};

use crate::checks::check_length;
use crate::egraph::EGraph;
use crate::simple_path::{SimplePath, common_tail};
use frames::rule::FrameRule;
use model::error::{Fault, asked};
use model::items::{Pair, Step};

impl<'a, R: FrameRule> EGraph<'a, R> {
    // Walks from both enodes; there is a path where the walks end alike. The scratch is no struct: tried, and what the calls lend to one is not seen at their end.
    pub(crate) fn get_simple_path(
        &self,
        pair: Pair,
        marks: &mut [u8],
        walks: &mut [u32],
    ) -> Option<SimplePath>
        requires from { pair.from < size_on_file self.now }
        requires to { pair.to < size_on_file self.now }
        requires bytes { size_on_file self.now ≤ length marks.old }
        requires places { 2 * size_on_file self.now ≤ length walks.old }
        ensures found { MatchOption result (path (links_on_file self.now) (size_on_file self.now) pair.from pair.to ≡ None) (FoundPath (links_on_file self.now) (size_on_file self.now) pair walks.new) }
        ensures marks { marks.new ≡ cleared marks.old }
    {
        let from = self.walk(pair.from, None, marks, walks);
        let root = walks[from.len - 1];
        let to = self.walk(pair.to, Some(root), marks, &mut walks[from.len..]);
        let walks = &walks[..];
        if walks[from.len + to.len - 1] != root {
            return None;
        }
        let second = &walks[from.len..from.len + to.len];
        Some(SimplePath {
            from_to_root: from.len,
            to_to_root: to.len,
            shared: common_tail(&walks[..from.len], second),
        })
    }

    // Whether the scratch is long enough for the two walks of a pair.
    fn check_scratch(&self, marks: usize, walks: usize) -> Result<(), Fault>
        ensures { told result ≡ and_then (long_enough (size_on_file self.now) marks) (long_enough (2 * size_on_file self.now) walks) }
    {
        let size = self.enode_count();
        check_length(size, marks)?;
        check_length(2 * size, walks)
    }

    fn check_pair(&self, pair: Pair, marks: usize, walks: usize) -> Result<(), Fault>
        ensures { told result ≡ pair_checks (size_on_file self.now) pair marks walks }
    {
        self.check_scratch(marks, walks)?;
        self.check_known(pair)
    }

    // Whether the root walks of two enodes share one. `marks` and `walks` are scratch.
    #[tactic(auto, using(model::proofs::PathLaws::walks_lawful))]
    pub fn check_eq(
        &self,
        from: u32,
        to: u32,
        marks: &mut [u8],
        walks: &mut [u32],
    ) -> Result<bool, Fault>
        ensures outcome { (told result, marks.new) ≡ check_eq_call (links_on_file self.now) (size_on_file self.now) (record { from = from; to = to }) marks.old (length walks.old) }
        ensures laws { LawfulWalks self.now }
    {
        let pair = Pair { from, to };
        asked(pair, self.check_pair(pair, marks.len(), walks.len()))?;
        Ok(self.get_simple_path(pair, marks, walks).is_some())
    }

    // Writes the steps of a path over the walks that it was found on, and answers how many there are.
    fn write_steps(&self, found: SimplePath, pair: Pair, walks: &[u32], steps: &mut [Step]) -> usize
        requires from { pair.from < size_on_file self.now }
        requires to { pair.to < size_on_file self.now }
        requires found { FoundPath (links_on_file self.now) (size_on_file self.now) pair walks.now found }
        requires places { size_on_file self.now ≤ length steps.old }
        ensures { (Some result, steps.new) ≡ told_path (path (links_on_file self.now) (size_on_file self.now) pair.from pair.to) steps.old }
    {
        let rising = found.rising();
        let falling = found.falling();
        let second = found.from_to_root;
        self.write_links(&walks[..rising], true, steps);
        self.write_links(
            &walks[second..second + falling],
            false,
            &mut steps[rising..],
        );
        rising + falling
    }

    fn check_path(&self, pair: Pair, marks: usize, walks: usize, steps: usize) -> Result<(), Fault>
        ensures { told result ≡ path_checks (size_on_file self.now) pair marks walks steps }
    {
        self.check_scratch(marks, walks)?;
        check_length(self.enode_count(), steps)?;
        self.check_known(pair)
    }

    // How many steps the path of a pair has, which are written into `steps`; none where there is no path. `marks` and `walks` are scratch.
    #[tactic(auto, using(model::proofs::PathLaws::walks_lawful))]
    pub fn path(
        &self,
        from: u32,
        to: u32,
        marks: &mut [u8],
        walks: &mut [u32],
        steps: &mut [Step],
    ) -> Result<Option<usize>, Fault>
        ensures outcome { (told result, (marks.new, steps.new)) ≡ path_call (links_on_file self.now) (size_on_file self.now) (record { from = from; to = to }) marks.old (length walks.old) steps.old }
        ensures laws { LawfulWalks self.now }
    {
        let pair = Pair { from, to };
        asked(
            pair,
            self.check_path(pair, marks.len(), walks.len(), steps.len()),
        )?;
        let Some(found) = self.get_simple_path(pair, marks, walks) else {
            return Ok(None);
        };
        Ok(Some(self.write_steps(found, pair, walks, steps)))
    }
}

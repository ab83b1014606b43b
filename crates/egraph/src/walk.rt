// Root walks: from an enode along its links, to an enode with no link, before one met again, or to a root that is told.
ghost use Rattle.std.specs.Prelude.{◌≡◌, ◌+◌, ◌<◌, ◌≤◌, length, replicate};
ghost use Rattle.model.specs.Walks.{root_walk};
ghost use Rattle.egraph.specs.Graph.{links_on_file, size_on_file, LawfulWalks};
ghost use Rattle.model.specs.Refusals.{told};
ghost use Rattle.model.specs.WalkCalls.{placed, told_walk, walk_checks, path_to_root};

use crate::checks::check_length;
use crate::egraph::EGraph;
use frames::rule::FrameRule;
use model::error::Fault;
use model::items::RootWalk;

// The mark bytes of one walk, cleared at its end on each way out.
struct Marks<'a> {
    bytes: &'a mut [u8],
}

impl Drop for Marks<'_> {
    fn drop(self)
        ensures { self.exit.0.now ≡ replicate (length self.entry.bytes.now) 0 }
    {
        self.bytes.fill(0);
        let Marks { bytes: _ } = self;
    }
}

impl<'a, R: FrameRule> EGraph<'a, R> {
    // Writes the walk from `from` into `out`.
    pub(crate) fn walk(
        &self,
        from: u32,
        root: Option<u32>,
        marks: &mut [u8],
        out: &mut [u32],
    ) -> RootWalk
        requires known { from < size_on_file self.now }
        requires bytes { size_on_file self.now ≤ length marks.old }
        requires places { size_on_file self.now ≤ length out.old }
        ensures walk { result ≡ told_walk (root_walk (links_on_file self.now) (size_on_file self.now) root from) }
        ensures bounds { (1 ≤ result.len) × (result.len ≤ size_on_file self.now) }
        ensures marks { marks.new ≡ replicate (length marks.old) 0 }
        ensures out { out.new ≡ placed 0 (root_walk (links_on_file self.now) (size_on_file self.now) root from).enodes out.old }
    {
        marks.fill(0);
        let guard = Marks { bytes: marks };
        let mut at = from;
        // `len` is answered; the enodes are found along the links, and no slice holds them.
        for len in 0..self.enode_count() {
            if guard.bytes[at as usize] != 0 {
                return RootWalk {
                    tells: Some(at),
                    len,
                };
            }
            guard.bytes[at as usize] = 1;
            out[len] = at;
            if root == Some(at) {
                return RootWalk {
                    tells: Some(at),
                    len: len + 1,
                };
            }
            let Some(link) = self.link(at) else {
                return RootWalk {
                    tells: None,
                    len: len + 1,
                };
            };
            at = link.to;
        }
        RootWalk {
            tells: Some(at),
            len: self.enode_count(),
        }
    }

    fn check_walk(
        &self,
        from: u32,
        root: Option<u32>,
        marks: usize,
        places: usize,
    ) -> Result<(), Fault>
        ensures { told result ≡ walk_checks (size_on_file self.now) from root marks places }
    {
        let size = self.enode_count();
        check_length(size, marks)?;
        check_length(size, places)?;
        self.check_enode(from)?;
        if let Some(told) = root {
            self.check_enode(told)?;
        }
        Ok(())
    }

    // The root walk from an enode, which ends at `root` where it is told one. Its enodes are written into `path`; `marks` is scratch.
    #[tactic(auto, using(model::proofs::PathLaws::walks_lawful))]
    pub fn path_to_root(
        &self,
        from: u32,
        root: Option<u32>,
        marks: &mut [u8],
        path: &mut [u32],
    ) -> Result<RootWalk, Fault>
        ensures outcome { (told result, (marks.new, path.new)) ≡ path_to_root (links_on_file self.now) (size_on_file self.now) from root marks.old path.old }
        ensures laws { LawfulWalks self.now }
    {
        self.check_walk(from, root, marks.len(), path.len())?;
        Ok(self.walk(from, root, marks, path))
    }
}

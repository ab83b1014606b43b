// The steps of a path, from the walks that it was found over.
ghost use Rattle.std.specs.Prelude.{◌≡◌, ◌<◌, ◌≤◌, if◌then◌else◌, length};
ghost use Rattle.model.specs.Paths.{given_of};
ghost use Rattle.model.specs.WalkCalls.{placed};
ghost use Rattle.egraph.specs.Graph.{links_on_file, size_on_file};
ghost use Rattle.egraph.specs.SimplePath.{AllBelow, rising_steps, falling_steps};

use crate::egraph::EGraph;
use frames::rule::FrameRule;
use model::items::Step;

impl<'a, R: FrameRule> EGraph<'a, R> {
    // The given that an enode's link follows; 0 where there is none, as the definitions have it.
    fn given_up(&self, enode: u32) -> u32
        requires { enode < size_on_file self.now }
        ensures { result ≡ given_of (links_on_file self.now enode) }
    {
        self.link(enode).map_or(0, |link| link.given)
    }

    // The steps over the links of these enodes: up them in their order, or down them from the last to the first.
    pub(crate) fn write_links(&self, enodes: &[u32], forward: bool, steps: &mut [Step])
        requires known { AllBelow (size_on_file self.now) enodes.now }
        requires places { length enodes.now ≤ length steps.old }
        ensures { steps.new ≡ placed 0 (if forward then rising_steps (links_on_file self.now) enodes.now else falling_steps (links_on_file self.now) enodes.now) steps.old }
    {
        for (i, enode) in enodes.iter().enumerate() {
            steps[i] = Step {
                given: self.given_up(*enode),
                forward,
            };
        }
        if !forward {
            steps[..enodes.len()].reverse();
        }
    }
}

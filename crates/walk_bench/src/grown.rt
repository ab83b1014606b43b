// A forest of eight levels, whatever its size: each enode is linked to one a level higher, so that every walk is about eight enodes long.
use egraph::egraph::EGraph;
use frames::rule::FrameRule;
use model::items::EqualityExpl;

const LEVELS: u32 = 8;

// How many enodes it has.
#[derive(Clone, Copy)]
pub(crate) struct Forest {
    pub(crate) size: u32,
}

// A number below `n` that looks like chance, and is always the same.
fn scattered(i: u32, n: u32) -> u32 {
    i.wrapping_mul(2_654_435_761).checked_rem(n).unwrap_or(0)
}

impl Forest {
    // How many enodes stand on a level.
    fn width(self) -> u32 {
        self.size / LEVELS
    }

    // The enode that an enode is linked to.
    fn parent(self, i: u32) -> u32 {
        let width = self.width();
        if width == 0 || i < width {
            return 0;
        }
        let level = i / width;
        (level - 1)
            .saturating_mul(width)
            .saturating_add(scattered(i, width))
    }

    // An enode of the last level.
    pub(crate) fn leaf(self, i: u32) -> u32 {
        let width = self.width();
        width
            .saturating_mul(LEVELS - 1)
            .saturating_add(scattered(i, width))
    }

    // Logs a given of an enode, and answers whether it was refused.
    fn is_refused<R: FrameRule>(self, graph: &mut EGraph<'_, R>, i: u32) -> bool {
        let axiom = EqualityExpl::Axiom {
            from: i,
            to: self.parent(i),
        };
        graph.new_given_equality(i, axiom).is_err()
    }

    // Logs a given of each enode but the first, and answers how many were refused.
    fn link_all<R: FrameRule>(self, graph: &mut EGraph<'_, R>) -> usize {
        (1..self.size)
            .filter(|i| self.is_refused(graph, *i))
            .count()
    }

    // Logs the enodes and their links; then, in a frame that is closed again, `passed` newer givens of each. Answers how many calls were refused.
    pub(crate) fn grow<R: FrameRule>(self, graph: &mut EGraph<'_, R>, passed: u32) -> usize {
        let enodes = (0..self.size)
            .filter(|owner| graph.new_enode(*owner).is_err())
            .count();
        let links = self.link_all(graph);
        let opened = usize::from(graph.new_frame().is_err());
        let newer = (0..passed).fold(0usize, |refused, _| {
            refused.saturating_add(self.link_all(graph))
        });
        let closed = usize::from(graph.pop_frame().is_err());
        [enodes, links, opened, newer, closed]
            .iter()
            .fold(0usize, |refused, more| refused.saturating_add(*more))
    }
}

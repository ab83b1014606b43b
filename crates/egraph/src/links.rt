// An enode's link, and the oldest given between two enodes.
ghost use Rattle.std.specs.Prelude.{◌≡◌, ◌<◌, length};
ghost use Rattle.model.specs.Refusals.{told};
ghost use Rattle.model.specs.Records.{oldest_from};
ghost use Rattle.model.specs.Logging.{between, get_given};
ghost use Rattle.egraph.specs.Table.{listed};
ghost use Rattle.egraph.specs.GivensUnder.{newest_first, givens_back};
ghost use Rattle.egraph.specs.Graph.{links_on_file, givens_on_file, size_on_file};
ghost use Rattle.egraph.specs.View.{records_in};

use crate::egraph::EGraph;
use crate::givens_under::GivensUnder;
use frames::rule::FrameRule;
use model::error::Fault;
use model::items::{Link, Pair};

impl<'a, R: FrameRule> EGraph<'a, R> {
    // The givens of an enode, whichever frames count.
    fn givens_under(&self, enode: u32) -> GivensUnder<'_>
        requires { enode < size_on_file self.now }
        ensures { givens_back result.rows.now result.next ≡ newest_first enode (listed self.now.records.givens) (length (listed self.now.records.givens)) }
    {
        GivensUnder {
            rows: self.records.givens.filed(),
            next: self.records.enodes.filed()[enode as usize].newest,
        }
    }

    // The newest given of the enode whose frame counts.
    pub(crate) fn link(&self, enode: u32) -> Option<Link>
        requires { enode < size_on_file self.now }
        ensures { result ≡ links_on_file self.now enode }
    {
        self.givens_under(enode)
            .find(|(_, given)| self.rule.counts(given.frame))
            .map(|(number, given)| Link {
                given: number,
                to: given.to,
            })
    }

    // The oldest given of an enode to another, whichever frames count.
    fn oldest_given(&self, pair: Pair) -> Option<u32>
        requires { pair.from < size_on_file self.now }
        ensures { result ≡ oldest_from 0 (between pair.from pair.to) (givens_on_file self.now) }
    {
        self.givens_under(pair.from)
            .filter(|(_, given)| given.to == pair.to)
            .last()
            .map(|(number, _)| number)
    }

    // Two enodes and no pair, as the original's calls have them.
    #[tactic(auto, using(crate::proofs::Sizes::size_in))]
    pub fn get_given(&self, from: u32, to: u32) -> Result<Option<u32>, Fault>
        ensures { told result ≡ get_given from to (records_in self.now.records) }
    {
        let pair = Pair { from, to };
        self.check_known(pair)?;
        Ok(self.oldest_given(pair))
    }
}

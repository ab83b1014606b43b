// Runs the calls of a log on a case of its own.
ghost use Rattle.std.specs.Prelude.{◌≡◌, ◌++◌, IfOk, string_bytes, OnOk};
ghost use Rattle.egraph.specs.Graph.{case_on_file};
ghost use Rattle.wordlog.specs.Calls.{call_of};
ghost use Rattle.listing.specs.Runs.{call_text, After, Adds, Listed};

use crate::scratch::ENODES;
use crate::text::Listing;
use egraph::egraph::EGraph;
use egraph::enode::ENode;
use egraph::equality::Given;
use frames::rule::FrameRule;
use model::items::Pair;
use std::alloc::{AllocError, Global};
use wordlog::call::Call;
use wordlog::reader::{Log, Reader};

impl Listing {
    // Questions print their answers, other calls nothing unless they are refused.
    fn run_call<R: FrameRule>(
        &mut self,
        graph: &mut EGraph<'_, R>,
        call: Call<'_>,
        place: u32,
    ) -> Result<(), AllocError>
        ensures text { OnOk result (self.new ≡ self.old ++ call_text R.FrameRule.limit place (case_on_file graph.old) (call_of call.entry)) }
        ensures case { After R.FrameRule.limit (case_on_file graph.old) (call_of call.entry) (case_on_file graph.new) }
    {
        let answer = match call {
            Call::Enode { owner } => graph.new_enode(owner),
            Call::Given { expl } => graph.new_given_equality(expl.from(), expl),
            Call::Open => graph.new_frame(),
            Call::Close => graph.pop_frame(),
            Call::Ask { from, to, .. } => return self.ask(graph, Pair { from, to }, place),
        };
        self.show_refusal(answer, place)
    }

    // Runs the log to its end, or to words that cannot be read. A plain loop, since a call's place is asked before the call is read.
    fn run_calls<R: FrameRule>(
        &mut self,
        graph: &mut EGraph<'_, R>,
        log: Log<'_>,
    ) -> Result<(), AllocError>
        ensures { OnOk result (Adds R.FrameRule.limit log.entry.words.now log.entry.ragged (case_on_file graph.old) (case_on_file graph.new) self.old self.new) }
    {
        let mut reader = Reader::new(log);
        'calls: loop {
            let place = reader.place();
            match reader.next_call() {
                Err(fault) => return self.show_fault(fault, place),
                Ok(None) => return Ok(()),
                Ok(Some(call)) => self.run_call(graph, call, place)?,
            }
        }
    }
}

// The text that the log prints under a frame rule.
pub fn run<R: FrameRule + Drop>(rule: R, log: Log<'_>, heap: Global) -> Result<String, AllocError>
    ensures { IfOk result (λ text. Listed R.FrameRule.limit log.entry.words.now log.entry.ragged (R.FrameRule.means rule) (string_bytes text)) }
{
    let mut enodes = [ENode::default(); ENODES];
    let mut givens = [Given::default(); 128];
    let mut arguments = [Pair::default(); 512];
    let mut graph = EGraph::new(&mut enodes, &mut givens, &mut arguments, rule);
    let mut listing = Listing::new(heap);
    listing.run_calls(&mut graph, log)?;
    listing.show_totals(&graph)?;
    Ok(listing.into_text())
}

// A listing as it is written: its text so far, and the tables that its questions work on.
ghost use Rattle.std.specs.Prelude.{◌≡◌, ℕ, List, [], ◌++◌, length, string_bytes, OnOk};
ghost use Rattle.model.specs.Refusals.{number_of, told};
ghost use Rattle.egraph.specs.Graph.{frames_of, givens_on_file, size_on_file};
ghost use Rattle.lines.specs.Text.{refused_text, totals_text};
ghost use Rattle.listing.specs.Runs.{refusal_text};

use crate::scratch::Scratch;
use egraph::egraph::EGraph;
use frames::rule::FrameRule;
use lines::text::Lines;
use model::error::Fault;
use std::alloc::{AllocError, Global};
use std::marker::Model;

#[derive(Drop)]
pub struct Listing {
    pub(crate) scratch: Scratch,
    pub(crate) out: Lines,
}

impl Model for Listing {
    ghost Value = { List ℕ };

    ghost view = { λ l. l.out };
}

impl Listing {
    pub(crate) fn new(heap: Global) -> Listing
        ensures { result ≡ [] }
    {
        Listing {
            scratch: Scratch::new(),
            out: Lines::new(heap),
        }
    }

    pub(crate) fn show_fault(&mut self, fault: Fault, place: u32) -> Result<(), AllocError>
        ensures { OnOk result (self.new ≡ self.old ++ refused_text (number_of fault.cause) place) }
    {
        self.out.refused(fault.cause.number(), place)
    }

    // A call that is not refused prints nothing.
    pub(crate) fn show_refusal(
        &mut self,
        answer: Result<u32, Fault>,
        place: u32,
    ) -> Result<(), AllocError>
        ensures { OnOk result (self.new ≡ self.old ++ refusal_text place (told answer)) }
    {
        match answer {
            Ok(_) => Ok(()),
            Err(fault) => self.show_fault(fault, place),
        }
    }

    // How much is on the books.
    pub(crate) fn show_totals<R: FrameRule>(
        &mut self,
        graph: &EGraph<'_, R>,
    ) -> Result<(), AllocError>
        ensures { OnOk result (self.new ≡ self.old ++ totals_text (size_on_file graph.now) (length (givens_on_file graph.now)) (length (frames_of graph.now).opened)) }
    {
        let enodes = graph.enode_count() as u32;
        let givens = graph.given_count() as u32;
        self.out.totals(enodes, givens, graph.height())
    }

    pub(crate) fn into_text(self) -> String
        ensures { string_bytes result ≡ self }
    {
        let Listing { scratch: _, out } = self;
        out.into_text()
    }
}

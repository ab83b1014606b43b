// Answers a question: the root walks of its two enodes, and the path between them.
ghost use Rattle.std.specs.Prelude.{◌≡◌, ℕ, ◌≤◌, ◌++◌, OnOk};
ghost use Rattle.egraph.specs.Graph.{links_on_file, size_on_file};
ghost use Rattle.listing.specs.Question.{reply_text, question_text};
ghost use Rattle.listing.specs.Answers.{shown, reply_shown};

use crate::scratch::{Scratch, Walks};
use crate::text::Listing;
use egraph::egraph::EGraph;
use frames::rule::FrameRule;
use lines::text::Lines;
use model::error::Fault;
use model::items::Pair;
use std::alloc::AllocError;

impl Scratch {
    // None where both ends are one enode.
    fn find<R: FrameRule>(
        &mut self,
        graph: &EGraph<'_, R>,
        pair: Pair,
    ) -> Result<Option<Walks>, Fault>
        ensures { (place : ℕ) → reply_shown pair self.new place result ≡ reply_text (links_on_file graph.now) (size_on_file graph.now) pair place }
    {
        let steps = graph.path(
            pair.from,
            pair.to,
            &mut self.marks,
            &mut self.walks,
            &mut self.steps,
        )?;
        if pair.from == pair.to {
            return Ok(None);
        }
        let first = graph.path_to_root(pair.from, None, &mut self.marks, &mut self.first)?;
        let root = self.first[first.len - 1];
        let second = graph.path_to_root(pair.to, Some(root), &mut self.marks, &mut self.second)?;
        Ok(Some(Walks {
            first,
            second,
            steps,
        }))
    }

    fn show(&self, answer: Option<Walks>, pair: Pair, out: &mut Lines) -> Result<(), AllocError>
        ensures { OnOk result (out.new ≡ out.old ++ shown pair self.now answer) }
    {
        let Some(
            Walks {
                first,
                second,
                steps,
            },
        ) = answer
        else {
            return out.same(pair.from);
        };
        let (up, down) = (first.len, second.len);
        out.walk(&self.first[..up], first.tells)?;
        out.walk(&self.second[..down], second.tells)?;
        match steps {
            Some(len) => out.path(&self.steps[..len]),
            None => out.no_path(),
        }
    }
}

impl Listing {
    // The question, and its answer or its refusal.
    pub fn ask<R: FrameRule>(
        &mut self,
        graph: &EGraph<'_, R>,
        pair: Pair,
        place: u32,
    ) -> Result<(), AllocError>
        ensures { OnOk result (self.new ≡ self.old ++ question_text (links_on_file graph.now) (size_on_file graph.now) pair place) }
    {
        self.out.ask(pair.from, pair.to)?;
        match self.scratch.find(graph, pair) {
            Ok(answer) => self.scratch.show(answer, pair, &mut self.out),
            Err(fault) => self.show_fault(fault, place),
        }
    }
}

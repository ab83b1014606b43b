#![tactic(auto)]

// Measures root walks: walk_bench ENODES WALKS PASSED. Counts go to the standard output, times to the standard error.
mod grown;

use egraph::egraph::EGraph;
use egraph::enode::ENode;
use egraph::equality::Given;
use frames::live::Live;
use frames::rule::FrameRule;
use grown::Forest;
use model::items::Pair;
use std::alloc::Global;
use std::time::Instant;
use std::{env, io};

// An argument as a number, or what stands in for it.
fn number(rt: &HostRuntime, place: usize, otherwise: u32) -> io::Result<u32> {
    Ok(
        env::args(rt)?
            .nth(place)
            .and_then(|word| word.as_str().parse().ok())
            .unwrap_or(otherwise),
    )
}

// How many enodes so many walks meet.
fn walk_all<R: FrameRule>(
    graph: &EGraph<'_, R>,
    forest: Forest,
    walks: u32,
    marks: &mut [u8],
    path: &mut [u32],
) -> usize {
    (0..walks)
        .filter_map(|i| graph.path_to_root(forest.leaf(i), None, marks, path).ok())
        .fold(0usize, |met, walk| met.saturating_add(walk.len))
}

// Clears the mark bytes once for each walk, which itself does so twice.
fn clear_all(forest: Forest, walks: u32, marks: &mut [u8]) {
    // `i` is the number of a walk and no index.
    for i in 0..walks {
        marks.fill(0);
        if let Some(mark) = marks.get_mut(forest.leaf(i) as usize) {
            *mark = 1;
        }
    }
}

fn measure(
    rt: &HostRuntime,
    forest: Forest,
    walks: u32,
    passed: u32,
    heap: Global,
) -> io::Result<()> {
    let size = forest.size;
    let n = size as usize;
    let mut enodes = vec![in heap; ENode::default(); n]?;
    let mut givens = vec![in heap; Given::default(); 65536]?;
    let mut arguments = [Pair::default(); 1];
    let mut graph = EGraph::new(&mut enodes, &mut givens, &mut arguments, Live::new());
    let refused = forest.grow(&mut graph, passed);
    let mut marks = vec![in heap; 0u8; n]?;
    let mut path = vec![in heap; 0u32; n]?;
    let start = Instant::now(rt)?;
    let met = walk_all(&graph, forest, walks, &mut marks, &mut path);
    let walked = start.elapsed(rt)?;
    let again = Instant::now(rt)?;
    clear_all(forest, walks, &mut marks);
    let cleared = again.elapsed(rt)?;
    println!(rt; "enodes {size} passed {passed} refused {refused} walks {walks} met {met}")?;
    let (walked, cleared) = (walked.as_micros(), cleared.as_micros());
    eprintln!(rt;
        "enodes {size} passed {passed}: walks {walked} us; clearing the marks once for each {cleared} us"
    )
}

fn main(rt: HostRuntime) -> io::Result<()> {
    let size = number(&rt, 1, 1024)?.min(65536);
    let walks = number(&rt, 2, 1000)?;
    let passed = number(&rt, 3, 0)?.min(64);
    measure(&rt, Forest { size }, walks, passed, rt.alloc())
}

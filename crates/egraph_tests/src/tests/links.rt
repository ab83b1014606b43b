// Which given an enode's link follows, and which one is answered for two enodes.
use super::support::*;
use egraph::egraph::EGraph;
use frames::every::Every;
use frames::live::Live;
use frames::rule::FrameRule;
use model::error::{Cause, Fault};
use std::process::Abort;
use std::test::Fail;

// The second enode of the walk from 0, after a given 0→1, and 0→2 in a frame that is closed again.
fn second_after_closing<R: FrameRule>(
    rt: &impl Abort,
    graph: &mut EGraph<'_, R>,
) -> Result<u32, Fault> {
    log_enodes(graph, 3)?;
    log_pairs(graph, &[(0, 1)])?;
    assert_eq!(rt; graph.new_frame(), Ok(1));
    log_pairs(graph, &[(0, 2)])?;
    let mut scratch = Scratch::<3, 3, 0>::filled(3, 9);
    assert_eq!(rt; scratch.walk(graph, 0, None), Ok(root_walk(None, 2)));
    assert_eq!(rt; scratch.walks, [0, 2, 9]);
    assert_eq!(rt; graph.pop_frame(), Ok(1));
    assert_eq!(rt; scratch.walk(graph, 0, None), Ok(root_walk(None, 2)));
    // whichever frames count
    assert_eq!(rt; graph.get_given(0, 2), Ok(Some(1)));
    Ok(scratch.walks[1])
}

#[test]
fn a_closed_frame_counts_under_every_alone(rt: HostRuntime) {
    let mut tables = Tables::<3, 2, 0>::old();
    let mut live = tables.case(Live::new());
    assert_eq!(rt; second_after_closing(&rt, &mut live), Ok(1));
    let mut tables = Tables::<3, 2, 0>::old();
    let mut every = tables.case(Every::new());
    assert_eq!(rt; second_after_closing(&rt, &mut every), Ok(2));
}

#[test]
fn the_oldest_given_is_answered(rt: HostRuntime) -> Result<(), Fail> {
    let mut tables = Tables::<3, 4, 0>::old();
    let mut graph = tables.case(Live::new());
    log_enodes(&mut graph, 3)?;
    log_pairs(&mut graph, &[(1, 0), (0, 1), (0, 2), (0, 1)])?;
    assert_eq!(rt; graph.get_given(0, 1), Ok(Some(1)));
    assert_eq!(rt; graph.get_given(0, 2), Ok(Some(2)));
    assert_eq!(rt; graph.get_given(2, 0), Ok(None));
    assert_eq!(rt; graph.get_given(0, 0), Ok(None));
    refuses(&rt, graph.get_given(5, 6), Cause::UnknownEnode(5));
    refuses(&rt, graph.get_given(0, 6), Cause::UnknownEnode(6));
    Ok(())
}

// The newest given is the link; a closing brings back the link that it replaced.
#[test]
fn a_link_is_replaced(rt: HostRuntime) -> Result<(), Fail> {
    let mut tables = Tables::<4, 4, 0>::old();
    let mut graph = tables.case(Live::new());
    let mut scratch = Scratch::<4, 4, 0>::filled(0, 9);
    log_enodes(&mut graph, 4)?;
    log_pairs(&mut graph, &[(0, 1), (0, 2)])?;
    assert_eq!(rt; scratch.walk(&graph, 0, None), Ok(root_walk(None, 2)));
    assert_eq!(rt; scratch.walks, [0, 2, 9, 9]);
    assert_eq!(rt; graph.new_frame(), Ok(1));
    log_pairs(&mut graph, &[(0, 3), (0, 1)])?;
    assert_eq!(rt; scratch.walk(&graph, 0, None), Ok(root_walk(None, 2)));
    assert_eq!(rt; scratch.walks, [0, 1, 9, 9]);
    assert_eq!(rt; graph.pop_frame(), Ok(2));
    assert_eq!(rt; scratch.walk(&graph, 0, None), Ok(root_walk(None, 2)));
    assert_eq!(rt; scratch.walks, [0, 2, 9, 9]);
    Ok(())
}

// A given with both ends the same is a link to itself, whichever its kind.
#[test]
fn links_to_itself(rt: HostRuntime) -> Result<(), Fail> {
    let mut tables = Tables::<2, 3, 0>::old();
    let mut graph = tables.case(Live::new());
    let mut scratch = Scratch::<2, 2, 0>::filled(0, 9);
    log_enodes(&mut graph, 2)?;
    assert_eq!(rt; scratch.walk(&graph, 0, None), Ok(root_walk(None, 1)));
    assert_eq!(rt; graph.new_given_equality(0, root(0)), Ok(0));
    assert_eq!(rt; scratch.walk(&graph, 0, None), Ok(root_walk(Some(0), 1)));
    log_pairs(&mut graph, &[(1, 0)])?;
    assert_eq!(rt; scratch.walk(&graph, 1, None), Ok(root_walk(Some(0), 2)));
    assert_eq!(rt; graph.new_given_equality(1, literal(1, 1)), Ok(2));
    assert_eq!(rt; scratch.walk(&graph, 1, None), Ok(root_walk(Some(1), 1)));
    assert_eq!(rt; scratch.walks, [1, 0]);
    Ok(())
}

// Scratch and output that are too short: marks first, then walks, then steps, and only then the enodes.
use super::support::*;
use frames::live::Live;
use model::error::{Cause, Fault};
use model::items::Pair;
use std::fmt::Debug;
use std::process::Abort;
use std::test::Fail;

// Too short is the front of a table that would do, so that no call writes there either.
#[test]
fn a_walk_needs_places(rt: HostRuntime) -> Result<(), Fail> {
    let mut tables = Tables::<3, 1, 0>::old();
    let mut graph = tables.case(Live::new());
    let mut marks = [7; 3];
    let mut path = [9; 3];
    // no enodes, no places
    refuses(
        &rt,
        graph.path_to_root(0, None, &mut [], &mut []),
        Cause::UnknownEnode(0),
    );
    log_enodes(&mut graph, 3)?;
    refuses(
        &rt,
        graph.path_to_root(5, Some(6), &mut marks[..2], &mut path),
        Cause::Short(3),
    );
    refuses(
        &rt,
        graph.path_to_root(5, Some(6), &mut marks, &mut path[..2]),
        Cause::Short(3),
    );
    refuses(
        &rt,
        graph.path_to_root(5, Some(6), &mut marks, &mut path),
        Cause::UnknownEnode(5),
    );
    refuses(
        &rt,
        graph.path_to_root(0, Some(6), &mut marks, &mut path),
        Cause::UnknownEnode(6),
    );
    assert_eq!(rt;
        (marks, path),
        ([7; 3], [9; 3]),
        "a refused call writes nothing"
    );
    Ok(())
}

#[test]
fn a_comparison_needs_places(rt: HostRuntime) -> Result<(), Fail> {
    let mut tables = Tables::<3, 1, 0>::old();
    let mut graph = tables.case(Live::new());
    let mut marks = [7; 3];
    let mut walks = [9; 6];
    log_enodes(&mut graph, 3)?;
    refuses(
        &rt,
        graph.check_eq(5, 6, &mut marks[..2], &mut walks[..5]),
        Cause::Short(3),
    );
    refuses(
        &rt,
        graph.check_eq(5, 6, &mut marks, &mut walks[..5]),
        Cause::Short(6),
    );
    refuses(
        &rt,
        graph.check_eq(5, 6, &mut marks, &mut walks),
        Cause::UnknownEnode(5),
    );
    refuses(
        &rt,
        graph.check_eq(0, 6, &mut marks, &mut walks),
        Cause::UnknownEnode(6),
    );
    assert_eq!(rt; marks, [7; 3]);
    Ok(())
}

#[test]
fn a_path_needs_places(rt: HostRuntime) -> Result<(), Fail> {
    let mut tables = Tables::<3, 1, 0>::old();
    let mut graph = tables.case(Live::new());
    let mut marks = [7; 3];
    let mut walks = [9; 6];
    let mut steps = [NO_STEP; 3];
    log_enodes(&mut graph, 3)?;
    refuses(
        &rt,
        graph.path(5, 6, &mut marks[..2], &mut walks[..5], &mut steps[..2]),
        Cause::Short(3),
    );
    refuses(
        &rt,
        graph.path(5, 6, &mut marks, &mut walks[..5], &mut steps[..2]),
        Cause::Short(6),
    );
    refuses(
        &rt,
        graph.path(5, 6, &mut marks, &mut walks, &mut steps[..2]),
        Cause::Short(3),
    );
    refuses(
        &rt,
        graph.path(5, 6, &mut marks, &mut walks, &mut steps),
        Cause::UnknownEnode(5),
    );
    refuses(
        &rt,
        graph.path(0, 6, &mut marks, &mut walks, &mut steps),
        Cause::UnknownEnode(6),
    );
    assert_eq!(rt; marks, [7; 3]);
    Ok(())
}

// The pair that a refusal names, outside of nested questions.
fn asks_for<T: Debug + Drop>(rt: &impl Abort, answer: Result<T, Fault>, pair: Option<Pair>) {
    let fault = answer.expect_err(rt, "not refused");
    assert_eq!(rt;
        fault,
        Fault {
            cause: fault.cause,
            pair,
            level: 0,
            argument: None,
        }
    );
}

// The refusal of a question names its pair; that of a walk names none.
#[test]
fn a_question_names_its_pair(rt: HostRuntime) -> Result<(), Fail> {
    let mut tables = Tables::<1, 1, 0>::old();
    let mut graph = tables.case(Live::new());
    let mut scratch = Scratch::<1, 2, 0>::filled(7, 9);
    log_enodes(&mut graph, 1)?;
    asks_for(
        &rt,
        scratch.check_eq(&graph, 0, 6),
        Some(Pair { from: 0, to: 6 }),
    );
    asks_for(
        &rt,
        scratch.path(&graph, 5, 0),
        Some(Pair { from: 5, to: 0 }),
    );
    asks_for(&rt, scratch.walk(&graph, 5, None), None);
    asks_for(&rt, graph.get_given(5, 0), None);
    Ok(())
}

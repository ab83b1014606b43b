// Root walks: circles, a root that is told, and what is written where.
use super::support::*;
use frames::live::Live;
use std::test::Fail;

// 3→0→1→2→0 and 4→5→4: a walk tells the enode of the circle that it comes to first.
#[test]
fn circles(rt: HostRuntime) -> Result<(), Fail> {
    let mut tables = Tables::<6, 6, 0>::old();
    let mut graph = tables.case(Live::new());
    let mut scratch = Scratch::<6, 6, 0>::filled(0, 9);
    log_enodes(&mut graph, 6)?;
    log_pairs(
        &mut graph,
        &[(0, 1), (1, 2), (2, 0), (3, 0), (4, 5), (5, 4)],
    )?;
    assert_eq!(rt; scratch.walk(&graph, 4, None), Ok(root_walk(Some(4), 2)));
    assert_eq!(rt; scratch.walks, [4, 5, 9, 9, 9, 9]);
    assert_eq!(rt; scratch.walk(&graph, 1, None), Ok(root_walk(Some(1), 3)));
    assert_eq!(rt; scratch.walks, [1, 2, 0, 9, 9, 9]);
    assert_eq!(rt; scratch.walk(&graph, 3, None), Ok(root_walk(Some(0), 4)));
    assert_eq!(rt; scratch.walks, [3, 0, 1, 2, 9, 9]);
    assert_eq!(rt; scratch.marks, [0; 6]);
    Ok(())
}

// A circle through every enode that there is.
#[test]
fn one_circle(rt: HostRuntime) -> Result<(), Fail> {
    let mut tables = Tables::<3, 3, 0>::old();
    let mut graph = tables.case(Live::new());
    let mut scratch = Scratch::<3, 3, 0>::filled(1, 9);
    log_enodes(&mut graph, 3)?;
    log_pairs(&mut graph, &[(0, 1), (1, 2), (2, 0)])?;
    assert_eq!(rt; scratch.walk(&graph, 2, None), Ok(root_walk(Some(2), 3)));
    assert_eq!(rt; scratch.walks, [2, 0, 1]);
    assert_eq!(rt; scratch.marks, [0; 3]);
    Ok(())
}

#[test]
fn a_walk_is_told_a_root(rt: HostRuntime) -> Result<(), Fail> {
    let mut tables = Tables::<4, 3, 0>::old();
    let mut graph = tables.case(Live::new());
    let mut scratch = Scratch::<4, 4, 0>::filled(0, 9);
    log_enodes(&mut graph, 4)?;
    log_pairs(&mut graph, &[(0, 1), (1, 2), (2, 2)])?;
    assert_eq!(rt; scratch.walk(&graph, 0, Some(1)), Ok(root_walk(Some(1), 2)));
    assert_eq!(rt; scratch.walks, [0, 1, 9, 9]);
    assert_eq!(rt; scratch.walk(&graph, 0, Some(0)), Ok(root_walk(Some(0), 1)));
    // the root is not on the way
    assert_eq!(rt; scratch.walk(&graph, 0, Some(3)), Ok(root_walk(Some(2), 3)));
    assert_eq!(rt; scratch.walk(&graph, 3, Some(0)), Ok(root_walk(None, 1)));
    assert_eq!(rt; scratch.walks, [3, 1, 2, 9]);
    Ok(())
}

// Mark bytes are cleared before a walk and after it, those behind the enodes' too.
#[test]
fn marks_are_cleared(rt: HostRuntime) -> Result<(), Fail> {
    let mut tables = Tables::<3, 3, 0>::old();
    let mut graph = tables.case(Live::new());
    let mut scratch = Scratch::<5, 6, 3>::filled(7, 9);
    log_enodes(&mut graph, 3)?;
    log_pairs(&mut graph, &[(0, 1), (1, 1)])?;
    assert_eq!(rt; scratch.walk(&graph, 0, None), Ok(root_walk(Some(1), 2)));
    assert_eq!(rt; scratch.marks, [0; 5]);
    scratch.marks = [255; 5];
    assert_eq!(rt; scratch.check_eq(&graph, 1, 0), Ok(true));
    assert_eq!(rt; scratch.marks, [0; 5]);
    scratch.marks = [1; 5];
    assert_eq!(rt; scratch.path(&graph, 0, 2), Ok(None));
    assert_eq!(rt; scratch.marks, [0; 5]);
    Ok(())
}

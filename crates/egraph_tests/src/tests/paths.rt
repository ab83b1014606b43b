// Paths: the steps and their directions, and pairs that have none.
use super::support::*;
use frames::every::Every;
use std::test::Fail;

// 0→1→2 and 3→4→2, 5 apart: up two steps, then down two.
#[test]
fn up_and_down(rt: HostRuntime) -> Result<(), Fail> {
    let mut tables = Tables::<6, 4, 0>::old();
    let mut graph = tables.case(Every::new());
    let mut scratch = Scratch::<6, 12, 6>::filled(7, 9);
    log_enodes(&mut graph, 6)?;
    log_pairs(&mut graph, &[(4, 2), (3, 4), (1, 2), (0, 1)])?;
    assert_eq!(rt; scratch.path(&graph, 0, 3), Ok(Some(4)));
    // what is not written stays
    assert_eq!(rt;
        scratch.steps,
        [up(3), up(2), down(0), down(1), NO_STEP, NO_STEP]
    );
    Ok(())
}

#[test]
fn short_paths(rt: HostRuntime) -> Result<(), Fail> {
    let mut tables = Tables::<4, 2, 0>::old();
    let mut graph = tables.case(Every::new());
    let mut scratch = Scratch::<4, 8, 4>::filled(0, 0);
    log_enodes(&mut graph, 4)?;
    log_pairs(&mut graph, &[(0, 1), (1, 2)])?;
    assert_eq!(rt; scratch.path(&graph, 1, 1), Ok(Some(0)));
    assert_eq!(rt; scratch.path(&graph, 0, 3), Ok(None));
    assert_eq!(rt; scratch.steps[0], NO_STEP);
    assert_eq!(rt; scratch.path(&graph, 0, 2), Ok(Some(2)));
    assert_eq!(rt; scratch.steps[1], up(1));
    assert_eq!(rt; scratch.path(&graph, 2, 0), Ok(Some(2)));
    assert_eq!(rt; scratch.steps[0], down(1));
    assert_eq!(rt; scratch.steps[1], down(0));
    Ok(())
}

#[test]
fn pairs_are_equal(rt: HostRuntime) -> Result<(), Fail> {
    let mut tables = Tables::<5, 3, 0>::old();
    let mut graph = tables.case(Every::new());
    let mut scratch = Scratch::<5, 10, 0>::filled(0, 0);
    log_enodes(&mut graph, 5)?;
    log_pairs(&mut graph, &[(0, 2), (1, 2), (3, 4)])?;
    assert_eq!(rt; scratch.check_eq(&graph, 0, 1), Ok(true));
    assert_eq!(rt; scratch.check_eq(&graph, 2, 0), Ok(true));
    assert_eq!(rt; scratch.check_eq(&graph, 3, 3), Ok(true));
    assert_eq!(rt; scratch.check_eq(&graph, 0, 3), Ok(false));
    assert_eq!(rt; scratch.check_eq(&graph, 4, 2), Ok(false));
    Ok(())
}

// In a circle the way back is another given, and not the same one turned.
#[test]
fn a_path_in_a_circle(rt: HostRuntime) -> Result<(), Fail> {
    let mut tables = Tables::<2, 2, 0>::old();
    let mut graph = tables.case(Every::new());
    let mut scratch = Scratch::<2, 4, 2>::filled(0, 0);
    log_enodes(&mut graph, 2)?;
    log_pairs(&mut graph, &[(0, 1), (1, 0)])?;
    assert_eq!(rt; scratch.path(&graph, 0, 1), Ok(Some(1)));
    assert_eq!(rt; scratch.steps[0], up(0));
    assert_eq!(rt; scratch.path(&graph, 1, 0), Ok(Some(1)));
    assert_eq!(rt; scratch.steps[0], up(1));
    assert_eq!(rt; scratch.check_eq(&graph, 0, 1), Ok(true));
    Ok(())
}

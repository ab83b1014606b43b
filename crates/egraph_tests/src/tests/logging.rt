// Logging: a table that is full, enodes that are not on the books, and the order of the checks.
use super::support::*;
use frames::live::Live;
use model::error::{Cause, TableName};
use model::items::EqualityExpl;
use std::test::Fail;

#[test]
fn enodes_fill_their_table(rt: HostRuntime) {
    let mut tables = Tables::<2, 1, 1>::old();
    let mut graph = tables.case(Live::new());
    counts(&rt, &graph, 0, 0);
    assert_eq!(rt; graph.new_enode(5), Ok(0));
    assert_eq!(rt; graph.new_enode(5), Ok(1));
    refuses(&rt, graph.new_enode(5), Cause::Full(TableName::Enodes));
    counts(&rt, &graph, 2, 0);
}

#[test]
fn givens_fill_their_table(rt: HostRuntime) -> Result<(), Fail> {
    let mut tables = Tables::<3, 2, 0>::old();
    let mut graph = tables.case(Live::new());
    log_enodes(&mut graph, 3)?;
    assert_eq!(rt; graph.new_given_equality(0, axiom(0, 1)), Ok(0));
    assert_eq!(rt; graph.new_given_equality(0, axiom(0, 2)), Ok(1));
    refuses(
        &rt,
        graph.new_given_equality(1, axiom(1, 2)),
        Cause::Full(TableName::Givens),
    );
    counts(&rt, &graph, 3, 2);
    Ok(())
}

#[test]
fn arguments_fill_their_table(rt: HostRuntime) -> Result<(), Fail> {
    let mut tables = Tables::<2, 4, 2>::old();
    let mut graph = tables.case(Live::new());
    let full = Cause::Full(TableName::Arguments);
    log_enodes(&mut graph, 2)?;
    let three = congruence(0, 1, &[0, 1, 1, 0, 0, 0]);
    refuses(&rt, graph.new_given_equality(0, three), full);
    counts(&rt, &graph, 2, 0);
    // an odd word is in no pair
    let odd = congruence(0, 1, &[0, 1, 1]);
    assert_eq!(rt; graph.new_given_equality(0, odd), Ok(0));
    let two = congruence(0, 1, &[0, 1, 1, 0]);
    refuses(&rt, graph.new_given_equality(0, two), full);
    let one = congruence(0, 1, &[1, 1]);
    assert_eq!(rt; graph.new_given_equality(0, one), Ok(1));
    refuses(&rt, graph.new_given_equality(0, one), full);
    assert_eq!(rt; graph.new_given_equality(0, congruence(0, 1, &[])), Ok(2));
    counts(&rt, &graph, 2, 3);
    Ok(())
}

// The enode it is logged under, its first end, its second end, its arguments in order; then the wrong end; then room.
#[test]
fn checks_are_in_order(rt: HostRuntime) -> Result<(), Fail> {
    let mut tables = Tables::<2, 0, 0>::old();
    let mut graph = tables.case(Live::new());
    log_enodes(&mut graph, 2)?;
    for (under, expl, cause) in [
        (5, congruence(6, 7, &[8, 9]), Cause::UnknownEnode(5)),
        (0, congruence(6, 7, &[8, 9]), Cause::UnknownEnode(6)),
        (0, congruence(1, 2, &[8, 9]), Cause::UnknownEnode(2)),
        (0, congruence(1, 1, &[0, 1, 8, 9]), Cause::UnknownEnode(8)),
        (0, congruence(1, 1, &[0, 9]), Cause::UnknownEnode(9)),
        (0, congruence(1, 1, &[0, 1]), Cause::NotFirstEnd(0)),
        (1, congruence(1, 1, &[0, 1]), Cause::Full(TableName::Givens)),
    ] {
        refuses(&rt, graph.new_given_equality(under, expl), cause);
    }
    refuses(&rt, graph.new_enode(9), Cause::Full(TableName::Enodes));
    counts(&rt, &graph, 2, 0);
    Ok(())
}

// A given is logged under its first end, whichever its kind.
#[test]
fn under_its_first_end(rt: HostRuntime) -> Result<(), Fail> {
    let mut tables = Tables::<3, 4, 0>::old();
    let mut graph = tables.case(Live::new());
    log_enodes(&mut graph, 3)?;
    for (under, expl) in [(1, axiom(0, 1)), (2, root(1)), (0, literal(2, 0))] {
        refuses(
            &rt,
            graph.new_given_equality(under, expl),
            Cause::NotFirstEnd(under),
        );
    }
    counts(&rt, &graph, 3, 0);
    let theory = EqualityExpl::Theory {
        from: 0,
        theory: 9,
        to: 2,
    };
    assert_eq!(rt; graph.new_given_equality(0, theory), Ok(0));
    let unknown = EqualityExpl::Unknown {
        kind: 9,
        from: 1,
        to: 0,
    };
    assert_eq!(rt; graph.new_given_equality(1, unknown), Ok(1));
    counts(&rt, &graph, 3, 2);
    Ok(())
}

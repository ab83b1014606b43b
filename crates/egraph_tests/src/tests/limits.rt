// The limits of the tables, in tables that have places for more. Those are Vecs, too large for a `Tables`, so two tests lend them by hand.
use super::support::*;
use egraph::egraph::EGraph;
use frames::every::Every;
use frames::rule::FrameRule;
use model::error::{Cause, TableName};
use std::test::Fail;

#[test]
fn enodes_and_givens(rt: HostRuntime) -> Result<(), Fail> {
    let mut enodes = vec![in rt.alloc(); OLD_ENODE; 65537]?;
    let mut givens = vec![in rt.alloc(); OLD_GIVEN; 65537]?;
    let mut pairs = [OLD_PAIR; 0];
    let mut graph = EGraph::new(&mut enodes, &mut givens, &mut pairs, Every::new());
    log_enodes(&mut graph, 65536)?;
    refuses(&rt, graph.new_enode(0), Cause::Full(TableName::Enodes));
    for number in 0..65536 {
        assert_eq!(rt;
            graph.new_given_equality(65535, axiom(65535, 0)),
            Ok(number)
        );
    }
    // before the frame's count, which is full too
    refuses(
        &rt,
        graph.new_given_equality(65535, axiom(65535, 0)),
        Cause::Full(TableName::Givens),
    );
    assert_eq!(rt; graph.get_given(65535, 0), Ok(Some(0)));
    counts(&rt, &graph, 65536, 65536);
    Ok(())
}

#[test]
fn argument_pairs(rt: HostRuntime) -> Result<(), Fail> {
    let mut enodes = [OLD_ENODE; 1];
    let mut givens = [OLD_GIVEN; 3];
    let mut pairs = vec![in rt.alloc(); OLD_PAIR; 131073]?;
    let words = vec![in rt.alloc(); 0u32; 262146]?;
    let mut graph = EGraph::new(&mut enodes, &mut givens, &mut pairs, Every::new());
    log_enodes(&mut graph, 1)?;
    let full = Cause::Full(TableName::Arguments);
    let many = congruence(0, 0, &words);
    refuses(&rt, graph.new_given_equality(0, many), full);
    // `0..`, since the proof for `..` of a Vec does not close
    let most = congruence(0, 0, &words[0..262145]);
    assert_eq!(rt; graph.new_given_equality(0, most), Ok(0));
    let one = congruence(0, 0, &words[0..2]);
    refuses(&rt, graph.new_given_equality(0, one), full);
    assert_eq!(rt; graph.new_given_equality(0, axiom(0, 0)), Ok(1));
    Ok(())
}

// The frame's count is checked last; a rule that has counted before brings its counts with it.
#[test]
fn givens_of_one_frame(rt: HostRuntime) -> Result<(), Fail> {
    let mut tables = Tables::<1, 1, 0>::old();
    let mut rule = Every::new();
    for _ in 0..65536 {
        assert_eq!(rt; rule.log_given(), Ok(0));
    }
    let mut graph = tables.case(rule);
    log_enodes(&mut graph, 1)?;
    refuses(
        &rt,
        graph.new_given_equality(0, axiom(0, 0)),
        Cause::Full(TableName::FrameCount),
    );
    counts(&rt, &graph, 1, 0);
    assert_eq!(rt; graph.new_frame(), Ok(1));
    assert_eq!(rt; graph.new_given_equality(0, axiom(0, 0)), Ok(0));
    refuses(
        &rt,
        graph.new_given_equality(0, axiom(0, 0)),
        Cause::Full(TableName::Givens),
    );
    assert_eq!(rt; graph.pop_frame(), Ok(1));
    Ok(())
}

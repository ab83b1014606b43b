// Frames of a case: their numbers, their counts, and when one is refused.
use super::support::*;
use frames::live::Live;
use model::error::Cause;
use std::test::Fail;

#[test]
fn frames_open_and_close(rt: HostRuntime) -> Result<(), Fail> {
    let mut tables = Tables::<2, 4, 0>::old();
    let mut graph = tables.case(Live::new());
    log_enodes(&mut graph, 2)?;
    assert_eq!(rt; graph.height(), 1);
    refuses(&rt, graph.pop_frame(), Cause::OnlyBase);
    assert_eq!(rt; graph.new_frame(), Ok(1));
    log_pairs(&mut graph, &[(0, 1), (1, 0)])?;
    assert_eq!(rt; graph.new_frame(), Ok(2));
    refuses(
        &rt,
        graph.new_given_equality(1, axiom(0, 1)),
        Cause::NotFirstEnd(1),
    );
    assert_eq!(rt; graph.height(), 3);
    // a refused given is not counted
    assert_eq!(rt; graph.pop_frame(), Ok(0));
    assert_eq!(rt; graph.pop_frame(), Ok(2));
    // no number is handed out twice
    assert_eq!(rt; graph.new_frame(), Ok(3));
    assert_eq!(rt; graph.height(), 2);
    counts(&rt, &graph, 2, 2);
    Ok(())
}

#[test]
fn frames_are_limited(rt: HostRuntime) {
    let mut tables = Tables::<0, 0, 0>::old();
    let mut graph = tables.case(Live::new());
    for number in 1..64 {
        assert_eq!(rt; graph.new_frame(), Ok(number));
    }
    refuses(&rt, graph.new_frame(), Cause::FrameLimit(64));
    assert_eq!(rt; graph.height(), 64);
    assert_eq!(rt; graph.pop_frame(), Ok(0));
    assert_eq!(rt; graph.new_frame(), Ok(64));
}

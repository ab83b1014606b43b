// Whole lines, by example.
use crate::text::Lines;
use model::items::Step;
use std::test::Fail;

#[test]
fn asks(rt: HostRuntime) -> Result<(), Fail> {
    let mut out = Lines::new(rt.alloc());
    out.ask(3, 12)?;
    assert_eq!(rt; out.text.as_str(), "ask 3 12\n");
    Ok(())
}

#[test]
fn one_enode(rt: HostRuntime) -> Result<(), Fail> {
    let mut out = Lines::new(rt.alloc());
    out.same(4294967295)?;
    assert_eq!(rt; out.text.as_str(), "same 4294967295\n");
    Ok(())
}

#[test]
fn walks(rt: HostRuntime) -> Result<(), Fail> {
    let mut out = Lines::new(rt.alloc());
    out.walk(&[3, 10, 0], None)?;
    out.walk(&[7], Some(7))?;
    assert_eq!(rt; out.text.as_str(), "walk 3 10 0\nwalk 7 tells 7\n");
    Ok(())
}

#[test]
fn paths(rt: HostRuntime) -> Result<(), Fail> {
    let mut out = Lines::new(rt.alloc());
    let up = Step {
        given: 0,
        forward: true,
    };
    let down = Step {
        given: 12,
        forward: false,
    };
    out.path(&[up, up, down])?;
    out.no_path()?;
    assert_eq!(rt; out.text.as_str(), "path +g0 +g0 -g12\nno path\n");
    Ok(())
}

#[test]
fn log_lines(rt: HostRuntime) -> Result<(), Fail> {
    let mut out = Lines::new(rt.alloc());
    out.refused(7, 41)?;
    out.totals(5, 4, 1)?;
    assert_eq!(rt;
        out.text.as_str(),
        "refused 7 at 41\nenodes 5 givens 4 frames 1\n"
    );
    Ok(())
}

// Small logs and what they print, under both frame rules and at the tables' edges.
use crate::run::run;
use frames::every::Every;
use frames::live::Live;
use frames::rule::FrameRule;
use std::process::Abort;
use std::test::Fail;
use wordlog::reader::Log;

const ENODE: u32 = 0x1000_0000;

const ROOT: u32 = 0x2000_0001;

// A congruence with no argument pairs, to which two words are added for each.
const CONGRUENCE: u32 = 0x2200_0002;

const AXIOM: u32 = 0x2400_0002;

const OPEN: u32 = 0x3000_0000;

const CLOSE: u32 = 0x4000_0000;

const ASK: u32 = 0x5000_0000;

// A log with no bytes left over.
fn whole(words: &[u32]) -> Log<'_> {
    Log {
        words,
        ragged: false,
    }
}

// A log with bytes left over.
fn ragged(words: &[u32]) -> Log<'_> {
    Log {
        words,
        ragged: true,
    }
}

// What a log prints.
fn lists<R: FrameRule + Drop>(
    rt: &(impl Abort + AllocGlobal),
    rule: R,
    log: Log<'_>,
    expected: &str,
) -> Result<(), Fail> {
    let text = run(rule, log, rt.alloc())?;
    assert_eq!(rt; text.as_str(), expected);
    Ok(())
}

// Enodes 0 to 2; g0 0→1 in the base frame, g1 0→2 in a frame that is closed again.
const REPLACED: [u32; 20] = [
    ENODE, ENODE, ENODE, AXIOM, 0, 1, OPEN, AXIOM, 0, 2, ASK, 0, 2, CLOSE, ASK, 0, 1, ASK, 0, 2,
];

#[test]
fn closed_frame_counts(rt: HostRuntime) -> Result<(), Fail> {
    lists(
        &rt,
        Every::new(),
        whole(&REPLACED),
        "ask 0 2\nwalk 0 2\nwalk 2 tells 2\npath +g1\nask 0 1\nwalk 0 2\nwalk 1\nno path\nask 0 2\nwalk 0 2\nwalk 2 tells 2\npath +g1\nenodes 3 givens 2 frames 1\n",
    )
}

#[test]
fn closed_frame_leaves(rt: HostRuntime) -> Result<(), Fail> {
    lists(
        &rt,
        Live::new(),
        whole(&REPLACED),
        "ask 0 2\nwalk 0 2\nwalk 2 tells 2\npath +g1\nask 0 1\nwalk 0 1\nwalk 1 tells 1\npath +g0\nask 0 2\nwalk 0 1\nwalk 2\nno path\nenodes 3 givens 2 frames 1\n",
    )
}

#[test]
fn circles_and_roots(rt: HostRuntime) -> Result<(), Fail> {
    lists(
        &rt,
        Every::new(),
        whole(&[ENODE, ENODE, AXIOM, 0, 1, AXIOM, 1, 0, ASK, 0, 1, ASK, 1, 0]),
        "ask 0 1\nwalk 0 1 tells 0\nwalk 1 tells 1\npath +g0\nask 1 0\nwalk 1 0 tells 1\nwalk 0 tells 0\npath +g1\nenodes 2 givens 2 frames 1\n",
    )?;
    lists(
        &rt,
        Every::new(),
        whole(&[
            ENODE, ENODE, AXIOM, 0, 0, ROOT, 1, ASK, 0, 1, AXIOM, 0, 1, ASK, 1, 0,
        ]),
        "ask 0 1\nwalk 0 tells 0\nwalk 1 tells 1\nno path\nask 1 0\nwalk 1 tells 1\nwalk 0 1 tells 1\npath -g2\nenodes 2 givens 3 frames 1\n",
    )?;
    lists(
        &rt,
        Every::new(),
        whole(&[
            ENODE, ENODE, ENODE, AXIOM, 0, 2, AXIOM, 1, 2, ASK, 0, 1, AXIOM, 1, 0, ASK, 2, 1,
        ]),
        "ask 0 1\nwalk 0 2\nwalk 1 2 tells 2\npath +g0 -g1\nask 2 1\nwalk 2\nwalk 1 0 2 tells 2\npath -g0 -g2\nenodes 3 givens 3 frames 1\n",
    )
}

#[test]
fn refused_and_on(rt: HostRuntime) -> Result<(), Fail> {
    lists(
        &rt,
        Every::new(),
        whole(&[ENODE, ASK, 0, 1, ASK, 1, 0, ASK, 1, 1, ASK, 0, 0]),
        "ask 0 1\nrefused 1 at 1\nask 1 0\nrefused 1 at 4\nask 1 1\nrefused 1 at 7\nask 0 0\nsame 0\nenodes 1 givens 0 frames 1\n",
    )?;
    lists(
        &rt,
        Every::new(),
        whole(&[
            ENODE,
            AXIOM,
            0,
            1,
            CONGRUENCE + 2,
            0,
            0,
            0,
            1,
            ROOT,
            0,
            OPEN,
            CLOSE,
            CLOSE,
        ]),
        "refused 1 at 1\nrefused 1 at 4\nrefused 8 at 13\nenodes 1 givens 1 frames 1\n",
    )?;
    lists(
        &rt,
        Every::new(),
        whole(&[ENODE, ASK, 0, 0, 7, ENODE]),
        "ask 0 0\nsame 0\nrefused 10 at 4\nenodes 1 givens 0 frames 1\n",
    )?;
    lists(
        &rt,
        Every::new(),
        ragged(&[ENODE]),
        "refused 10 at 1\nenodes 1 givens 0 frames 1\n",
    )
}

#[test]
fn full_tables(rt: HostRuntime) -> Result<(), Fail> {
    let enodes = vec![in rt.alloc(); ENODE; 129]?;
    lists(
        &rt,
        Every::new(),
        whole(&enodes),
        "refused 4 at 128\nenodes 128 givens 0 frames 1\n",
    )?;
    let openings = vec![in rt.alloc(); OPEN; 64]?;
    lists(
        &rt,
        Every::new(),
        whole(&openings),
        "refused 7 at 63\nenodes 0 givens 0 frames 64\n",
    )?;
    let mut givens = vec![in rt.alloc(); ENODE]?;
    for _ in 0..129 {
        givens.extend_from_slice(&[ROOT, 0])?;
    }
    lists(
        &rt,
        Every::new(),
        whole(&givens),
        "refused 4 at 257\nenodes 1 givens 128 frames 1\n",
    )?;
    let mut arguments = vec![in rt.alloc(); ENODE, CONGRUENCE + 1024]?;
    arguments.extend_from_slice(&[0; 1026])?;
    arguments.extend_from_slice(&[CONGRUENCE + 2, 0, 0, 0, 0])?;
    lists(
        &rt,
        Every::new(),
        whole(&arguments),
        "refused 4 at 1028\nenodes 1 givens 1 frames 1\n",
    )
}

// Words behind the first 16,384 are not read, nor are bytes left over behind those.
#[test]
fn long_logs(rt: HostRuntime) -> Result<(), Fail> {
    let mut words = Vec::new(rt.alloc());
    for _ in 0..8192 {
        words.extend_from_slice(&[OPEN, CLOSE])?;
    }
    lists(
        &rt,
        Every::new(),
        ragged(&words),
        "enodes 0 givens 0 frames 1\n",
    )?;
    words.push(0)?;
    lists(
        &rt,
        Every::new(),
        whole(&words),
        "enodes 0 givens 0 frames 1\n",
    )
}

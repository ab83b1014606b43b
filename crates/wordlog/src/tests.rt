// Logs that are refused, each at its place, and logs that are read and written again.
use crate::bytes::words_of;
use crate::call::{Call, TransEqAllowed};
use crate::reader::{Log, Reader};
use crate::writer::write_call;
use model::error::{Cause, Fault};
use model::items::{ArgPairs, EqualityExpl};
use std::process::Abort;

// Reads a log to its end, or to words that cannot be read. Each call takes a word, and behind the last one None comes again.
fn read(words: &[u32], ragged: bool) -> Result<(), Fault> {
    let mut reader = Reader::new(Log { words, ragged });
    for _ in 0..=words.len() {
        reader.next_call()?;
    }
    Ok(())
}

fn unreadable(place: u32) -> Result<(), Fault> {
    Err(Fault::new(Cause::Unreadable(place)))
}

fn bad(rt: &impl Abort, words: &[u32], place: u32) {
    assert_eq!(rt; read(words, false), unreadable(place));
}

#[test]
fn bad_heads(rt: HostRuntime) {
    for kind in [0x0, 0x6, 0x7, 0x8, 0x9, 0xa, 0xb, 0xc, 0xd, 0xe, 0xf] {
        bad(&rt, &[kind * 0x1000_0000, 0, 0], 0);
    }
    for kind in [0x6, 0x7, 0x8, 0x9, 0xa, 0xb, 0xc, 0xd, 0xe, 0xf] {
        bad(
            &rt,
            &[0x3000_0000, 0x2000_0002 + kind * 0x100_0000, 0, 0],
            1,
        );
    }
    bad(&rt, &[0x3000_0001], 0);
    bad(&rt, &[0x4080_0000], 0);
    bad(&rt, &[0x5000_0004, 0, 0], 0);
    bad(&rt, &[0x5800_0000, 0, 0], 0);
}

#[test]
fn bad_counts(rt: HostRuntime) {
    for head in [
        0x2000_0000,
        0x2000_0002,
        0x2100_0002,
        0x2100_0004,
        0x2200_0002,
        0x2200_0003,
    ] {
        bad(&rt, &[head, 0, 0, 0, 0, 0], 0);
    }
    for head in [
        0x2200_0005,
        0x2300_0002,
        0x2300_0004,
        0x2400_0001,
        0x2400_0003,
        0x2500_0004,
    ] {
        bad(&rt, &[head, 0, 0, 0, 0, 0], 0);
    }
    bad(&rt, &[0x1000_0000, 0x2400_0002, 0], 1);
    bad(&rt, &[0x2200_0004, 0, 0, 0], 0);
    bad(&rt, &[0x1000_0000, 0x1000_0001, 0x5000_0000, 0], 2);
}

#[test]
fn bad_words(rt: HostRuntime) {
    bad(&rt, &[0x2000_0001, 0x1000_0000], 0);
    bad(&rt, &[0x2400_0002, 0, 0x2000_0000], 0);
    bad(&rt, &[0x2200_0004, 0, 0, 0, 0xffff_ffff], 0);
    bad(&rt, &[0x5000_0003, 0x1000_0000, 0], 0);
    bad(&rt, &[0x3000_0000, 0x5000_0003, 0, 0x3000_0000], 1);
    assert_eq!(rt; read(&[], true), unreadable(0));
    assert_eq!(rt; read(&[0x3000_0000, 0x4000_0000], true), unreadable(2));
    assert_eq!(rt; read(&[0x3000_0000, 0x4000_0000], false), Ok(()));
}

// Writes each call of a log at its own place, and answers where that ended.
fn rewrite(words: &[u32], out: &mut [u32]) -> u32 {
    let mut reader = Reader::new(Log {
        words,
        ragged: false,
    });
    for _ in 0..words.len() {
        let at = reader.place() as usize;
        let Ok(Some(call)) = reader.next_call() else {
            break;
        };
        if at > out.len() || write_call(&call, &mut out[at..]).is_none() {
            break;
        }
    }
    reader.place()
}

// The log is read to its end, and its calls are written as its words.
fn good(rt: &impl Abort, words: &[u32]) {
    let mut out = [0xffff_ffff; 16];
    assert!(rt; words.len() <= 16);
    assert_eq!(rt; rewrite(words, &mut out) as usize, words.len());
    assert_eq!(rt; &out[..words.len()], words);
}

#[test]
fn each_kind(rt: HostRuntime) {
    good(&rt, &[0x1fff_ffff, 0x3000_0000, 0x2000_0001, 0x0fff_ffff]);
    good(&rt, &[0x2100_0003, 1, 2, 3, 0x2200_0004, 1, 2, 3, 4]);
    good(&rt, &[0x2200_0006, 1, 2, 3, 4, 5, 6, 0x4000_0000]);
    good(&rt, &[0x2300_0003, 1, 2, 3, 0x2400_0002, 1, 2]);
    good(&rt, &[0x2500_0003, 1, 2, 3, 0x5000_0001, 1, 2]);
    good(&rt, &[0x5000_0002, 1, 2, 0x5000_0003, 1, 2]);
}

// Enodes 0 and 1, an axiom that they are equal, and the question whether they are.
#[test]
fn small_log(rt: HostRuntime) {
    let first = b"\x00\x00\x00\x10\x01\x00\x00\x10\x02\x00\x00\x24\x00\x00\x00\x00";
    let second = b"\x01\x00\x00\x00\x00\x00\x00\x50\x00\x00\x00\x00\x01\x00\x00\x00";
    let mut words = [0; 8];
    assert_eq!(rt; words_of(first, &mut words), 4);
    assert_eq!(rt; words_of(second, &mut words[4..]), 4);
    let expected = [
        0x1000_0000,
        0x1000_0001,
        0x2400_0002,
        0,
        1,
        0x5000_0000,
        0,
        1,
    ];
    assert_eq!(rt; words, expected);
    good(&rt, &expected);
}

#[test]
fn call_fields(rt: HostRuntime) {
    let words = [0x1000_0001, 0x2200_0004, 1, 2, 3, 4, 0x5000_0002, 3, 4];
    let mut reader = Reader::new(Log {
        words: &words,
        ragged: false,
    });
    let enode = Call::Enode { owner: 1 };
    let congruence = EqualityExpl::Congruence {
        from: 1,
        arg_eqs: ArgPairs { words: &[3, 4] },
        to: 2,
    };
    let question = Call::Ask {
        allowed: TransEqAllowed {
            can_mismatch_initial: false,
            can_mismatch_congr: true,
        },
        from: 3,
        to: 4,
    };
    for call in [enode, Call::Given { expl: congruence }, question] {
        assert_eq!(rt; reader.next_call(), Ok(Some(call)));
    }
}

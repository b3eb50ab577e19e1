//! Runs over devices that fail: what went out, the outcome with its status, and what is reported of it.
use crate::outcome::{Outcome, report};
use crate::run::run;
use pf_text::{Refusal, Side};
use pf_values::devices::{Cut, Feed};
use pf_values::{Counted, RefusalKind};
use std::alloc::Global;
use std::io::ErrorKind;

// How many bytes a device takes or hands out in a call, and how it fails.
const STEPS: [usize; 4] = [1, 2, 3, 7];

const KINDS: [ErrorKind; 3] = [
    ErrorKind::Other,
    ErrorKind::Interrupted,
    ErrorKind::WouldBlock,
];

const STREAMED: &[u8] = b"a%.0sb%5d";

// The byte of the input at which a read fails, the bytes that the writer has room for, and whether its flush fails.
#[derive(Clone, Copy)]
struct Devices {
    fail_at: Option<u64>,
    room: usize,
    flush_fails: bool,
}

// Devices that don't fail.
const GOOD: Devices = Devices {
    fail_at: None,
    room: 64,
    flush_fails: false,
};

const WRITE_FAILED: &[u8] = b"write failed\n";

const READ_FAILED: &[u8] = b"read failed\n";

// Whether an outcome has this status, and this is reported of it.
fn is_reported(outcome: &Outcome, status: u8, line: &[u8]) -> bool {
    let mut place = [0u8; 128];
    let mut errors = Counted::new(Cut::new(&mut place, 3, ErrorKind::Other, true));
    report(outcome, &mut errors);
    outcome.status() == status && errors.into_inner().taken() == line
}

// Whether an outcome says that this many bytes went out before a write failed, if it says so of any.
fn counts(outcome: &Outcome, written: usize) -> bool {
    match outcome {
        Outcome::Write(count) => *count == written as u128,
        _ => true,
    }
}

// The outcome of a run over devices of this step and kind, or nothing if other bytes went out.
fn outcome_over(
    alloc: Global,
    words: &[&str],
    devices: Devices,
    step: usize,
    kind: ErrorKind,
    written: &[u8],
) -> Option<Outcome> {
    let mut buffer = [0u8; 64];
    let room = devices.room.min(64);
    let mut reader = Counted::new(Feed::new(STREAMED, step.max(1), devices.fail_at, kind));
    let cut = Cut::new(&mut buffer[..room], step.max(1), kind, devices.flush_fails);
    let mut writer = Counted::new(cut);
    let outcome = run(alloc, words, &mut reader, &mut writer);
    if writer.into_inner().taken() == written {
        Some(outcome)
    } else {
        None
    }
}

// Whether a run over devices of each step and kind writes these bytes, and ends with this status and report.
fn ends_so(
    alloc: Global,
    words: &[&str],
    devices: Devices,
    written: &[u8],
    status: u8,
    reported: &[u8],
) -> bool {
    for step in STEPS {
        for kind in KINDS {
            let is_so = match outcome_over(alloc, words, devices, step, kind, written) {
                Some(outcome) => {
                    counts(&outcome, written.len()) && is_reported(&outcome, status, reported)
                }
                None => false,
            };
            if !is_so {
                return false;
            }
        }
    }
    true
}

#[test]
fn writers_fail(rt: HostRuntime) {
    let alloc = rt.alloc();
    let small = Devices { room: 3, ..GOOD };
    let unflushed = Devices {
        room: 5,
        flush_fails: true,
        ..GOOD
    };
    let cut = Devices { room: 4, ..GOOD };
    let none = Devices { room: 0, ..GOOD };
    let canon: &[&str] = &["canon", "%05u"];
    let same: &[&str] = &["same", "%d", "%ld"];
    assert!(rt; ends_so(alloc, canon, small, b"%.5", 4, WRITE_FAILED));
    assert!(rt; ends_so(alloc, canon, unflushed, b"%.5u\n", 4, WRITE_FAILED));
    assert!(rt; ends_so(alloc, &["stream"], cut, b"ab%.", 4, WRITE_FAILED));
    assert!(rt; ends_so(alloc, same, none, b"", 4, WRITE_FAILED));
    assert!(rt; ends_so(alloc, same, GOOD, b"types differ at argument 0\n", 1, b""));
}

#[test]
fn readers_fail(rt: HostRuntime) {
    let alloc = rt.alloc();
    for at in [6, 8] {
        let devices = Devices {
            fail_at: Some(at),
            ..GOOD
        };
        assert!(rt; ends_so(alloc, &["stream"], devices, b"ab", 4, READ_FAILED));
    }
    assert!(rt; ends_so(alloc, &["stream"], GOOD, b"ab%.0s%5d", 0, b""));
}

const REFUSAL: Refusal = Refusal {
    kind: RefusalKind::Star,
    at: 1,
};

fn formats_are_reported() -> bool {
    is_reported(&Outcome::Done, 0, b"")
        && is_reported(&Outcome::Same, 0, b"")
        && is_reported(&Outcome::Different, 1, b"")
        && is_reported(&Outcome::Answered(2), 2, b"")
        && is_reported(
            &Outcome::refused(None, REFUSAL),
            2,
            b"refused 5 Star at byte 1\n",
        )
        && is_reported(
            &Outcome::refused(Some(Side::Second), REFUSAL),
            2,
            b"second: refused 5 Star at byte 1\n",
        )
}

fn arguments_are_reported() -> bool {
    let count = Outcome::WrongCount {
        wanted: 2,
        given: 1,
    };
    is_reported(&Outcome::BadWord(3), 3, b"argument 3: not an argument\n")
        && is_reported(&count, 3, b"argument count: wanted 2, given 1\n")
        && is_reported(&Outcome::WrongType(0), 3, b"argument 0: wrong type\n")
        && is_reported(&Outcome::NoSecond, 3, b"a second format is wanted\n")
}

fn devices_are_reported() -> bool {
    is_reported(&Outcome::Read, 4, READ_FAILED)
        && is_reported(&Outcome::Write(7), 4, WRITE_FAILED)
        && is_reported(&Outcome::Memory, 4, b"out of memory\n")
}

#[test]
fn each_outcome_is_reported(rt: HostRuntime) {
    assert!(rt; formats_are_reported());
    assert!(rt; arguments_are_reported());
    assert!(rt; devices_are_reported());
}

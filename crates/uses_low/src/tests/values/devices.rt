//! The devices, called one call after another.
use pf_values::devices::{Cut, Feed};
use std::io;
use std::io::{ErrorKind, Read, Write};

static KINDS: [ErrorKind; 4] = [
    ErrorKind::Interrupted,
    ErrorKind::WouldBlock,
    ErrorKind::BrokenPipe,
    ErrorKind::Other,
];

// What a call returns: a number of bytes, or an error of this kind.
fn answers(answer: io::Result<usize>, want: Option<usize>, kind: ErrorKind) -> bool {
    match answer {
        Ok(count) => want == Some(count),
        Err(error) => want.is_none() && error.kind() == kind,
    }
}

// Writes one after another into five bytes, in steps of two: how many each takes, and none where it fails.
static WRITES: [(&[u8], Option<usize>); 7] = [
    (b"abc", Some(2)),
    (b"", Some(0)),
    (b"d", Some(1)),
    (b"ef", Some(2)),
    (b"", Some(0)),
    (b"g", None),
    (b"gh", None),
];

fn takes_what_fits(kind: ErrorKind) -> bool {
    let mut place = [0u8; 5];
    let mut cut = Cut::new(&mut place, 2, kind, false);
    for (bytes, want) in &WRITES {
        if !answers(cut.write(bytes), *want, kind) {
            return false;
        }
    }
    cut.taken() == b"abdef".as_slice() && cut.flush().is_ok()
}

#[test]
fn a_cut_takes_a_step_and_what_fits(rt: HostRuntime) {
    for kind in KINDS {
        assert!(rt; takes_what_fits(kind));
    }
}

// The kind of error of a flush.
fn kind_of(flushed: io::Result<()>) -> Option<ErrorKind> {
    match flushed {
        Ok(()) => None,
        Err(error) => Some(error.kind()),
    }
}

// Each flush fails, and a write between them doesn't.
fn fails_to_flush(kind: ErrorKind) -> bool {
    let mut place = [0u8; 1];
    let mut cut = Cut::new(&mut place, 7, kind, true);
    let flushed = [kind_of(cut.flush()), kind_of(cut.flush())];
    let is_written = answers(cut.write(b"a"), Some(1), kind);
    is_written && flushed == [Some(kind); 2] && cut.taken() == b"a".as_slice()
}

#[test]
fn a_flush_fails_where_it_is_to(rt: HostRuntime) {
    for kind in KINDS {
        assert!(rt; fails_to_flush(kind));
    }
}

// Reads one after another into four bytes, of `abcdefg` in steps of three: how many each hands out, and none where it
// fails.
static READS: [(Option<u64>, &[Option<usize>]); 7] = [
    (None, &[Some(3), Some(3), Some(1), Some(0), Some(0)]),
    (Some(0), &[None, Some(3), Some(3), Some(1), Some(0)]),
    (Some(2), &[Some(2), None, Some(3), Some(2), Some(0)]),
    (Some(3), &[Some(3), None, Some(3), Some(1), Some(0)]),
    (Some(4), &[Some(3), Some(1), None, Some(3), Some(0)]),
    (Some(7), &[Some(3), Some(3), Some(1), None, Some(0)]),
    (Some(8), &[Some(3), Some(3), Some(1), Some(0), Some(0)]),
];

fn is_read_so(fail_at: Option<u64>, reads: &[Option<usize>], kind: ErrorKind) -> bool {
    let mut feed = Feed::new(b"abcdefg", 3, fail_at, kind);
    let mut rest = b"abcdefg".as_slice();
    for want in reads {
        let mut place = [0u8; 4];
        let count = want.unwrap_or(0);
        let is_answered = answers(feed.read(&mut place), *want, kind);
        if !is_answered || place.get(..count) != rest.get(..count) {
            return false;
        }
        rest = rest.get(count..).unwrap_or(&[]);
    }
    true
}

#[test]
fn a_feed_fails_once(rt: HostRuntime) {
    for (fail_at, reads) in &READS {
        for kind in KINDS {
            assert!(rt; is_read_so(*fail_at, reads, kind));
        }
    }
}

fn is_read_by_twos() -> bool {
    let mut feed = Feed::new(b"abcdefg", 3, None, ErrorKind::Other);
    let (mut first, mut second) = ([0u8; 2], [0u8; 2]);
    let counts = [
        feed.read(&mut first).ok(),
        feed.read(&mut []).ok(),
        feed.read(&mut second).ok(),
    ];
    counts == [Some(2), Some(0), Some(2)] && [first, second] == [[b'a', b'b'], [b'c', b'd']]
}

// A place with less room than a step has all of it.
#[test]
fn a_feed_fills_what_it_is_given(rt: HostRuntime) {
    assert!(rt; is_read_by_twos());
}

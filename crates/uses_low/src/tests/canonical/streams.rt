//! Canonical texts of streams, read a few bytes at a time. `tests/program/test_short_streams.py` has `stream` write them
//! into each room.
use super::devices::{feed_that_fails, has_left, whole};
use pf_canon::laws::whole_run;
use pf_canon::{CanonBytes, CopyFault, StreamFault, canonical_stream};
use pf_text::Refusal;
use pf_values::devices::{Cut, Feed};
use pf_values::{Counted, Model, RefusalKind};
use std::alloc::Global;
use std::io::ErrorKind;

static CUTS: [usize; 5] = [1, 2, 3, 7, 4096];

// Whether a stream gives these bytes next.
fn gives_next(stream: &mut CanonBytes<Feed<'_>>, bytes: &[u8]) -> bool {
    for byte in bytes {
        if stream.next() != Some(Ok(*byte)) {
            return false;
        }
    }
    true
}

// Whether a stream gives these bytes and then this fault, if any, and then nothing more.
fn gives(stream: &mut CanonBytes<Feed<'_>>, bytes: &[u8], fault: Option<StreamFault>) -> bool {
    gives_next(stream, bytes)
        && (fault.is_none() || stream.next() == fault.map(Err))
        && stream.next().is_none()
        && stream.next().is_none()
}

// Whether `CanonBytes` gives these bytes and this fault, and this is left of the text.
fn bytes_end(reader: Feed<'_>, bytes: &[u8], fault: Option<StreamFault>, left: &[u8]) -> bool {
    let mut stream = CanonBytes::new(Model::Lp64, Counted::new(reader));
    let is_given = gives(&mut stream, bytes, fault);
    let reader = stream.into_reader();
    let failures = (fault == Some(StreamFault::Read)) as u64;
    is_given && reader.failures() == failures && has_left(reader.into_inner(), left)
}

// Whether a copy of a text writes these bytes and ends like this. A flush of the writer would fail.
fn copy_ends(reader: Feed<'_>, bytes: &[u8], end: Result<(), CopyFault>) -> bool {
    let mut place = [0u8; 64];
    let mut reader = Counted::new(reader);
    let mut writer = Counted::new(Cut::new(&mut place, 7, ErrorKind::Interrupted, true));
    let failures = (end == Err(CopyFault::Read)) as u64;
    canonical_stream(Model::Lp64, &mut reader, &mut writer) == end
        && reader.failures() == failures
        && writer.failures() == 0
        && writer.into_inner().taken() == bytes
}

// Whether a whole run of a stream gives this text.
fn run_gives(alloc: Global, reader: Feed<'_>, bytes: &[u8]) -> bool {
    let mut out = Vec::new(alloc);
    match whole_run(Model::Lp64, Counted::new(reader), &mut out) {
        Ok((_, end)) => end.is_ok() && out.as_slice() == bytes,
        Err(_) => false,
    }
}

/// Whether a format gives this canonical text, however it is cut.
pub(super) fn streams_to(alloc: Global, format: &[u8], text: &[u8]) -> bool {
    for step in CUTS {
        let is_right = bytes_end(whole(format, step), text, None, b"")
            && copy_ends(whole(format, step), text, Ok(()))
            && run_gives(alloc, whole(format, step), text);
        if !is_right {
            return false;
        }
    }
    true
}

// Whether this is left of a text, after these bytes of its canonical text were asked for.
fn leaves(text: &[u8], given: &[u8], left: &[u8]) -> bool {
    let mut stream = CanonBytes::new(Model::Lp64, Counted::new(whole(text, 1)));
    let is_given = gives_next(&mut stream, given);
    is_given && has_left(stream.into_reader().into_inner(), left)
}

#[test]
fn a_stream_reads_no_further(rt: HostRuntime) {
    assert!(rt; leaves(b"a%5db", b"a%", b"b"));
}

// Whether a rejected text gives these bytes and the refusal, and the bytes after the rejected one are left.
fn stops() -> bool {
    let refusal = Refusal {
        kind: RefusalKind::Unexpected,
        at: 10,
    };
    let text = b"a%.0sb%5d%q rest".as_slice();
    bytes_end(
        whole(text, 3),
        b"ab%.0s%5d",
        Some(StreamFault::Refused(refusal)),
        b" rest",
    ) && copy_ends(
        whole(text, 3),
        b"ab%.0s%5d",
        Err(CopyFault::Refused(refusal)),
    )
}

#[test]
fn a_stream_stops_after_what_is_settled(rt: HostRuntime) {
    assert!(rt; stops());
}

// Whether a read that fails after `at` bytes is reported once, after what is settled by then.
fn fails_once(step: usize, at: usize) -> bool {
    let format = b"a%.0sb%5d";
    let left = format.get(at..).unwrap_or(b"");
    bytes_end(
        feed_that_fails(format, step, at),
        b"ab",
        Some(StreamFault::Read),
        left,
    ) && copy_ends(
        feed_that_fails(format, step, at),
        b"ab",
        Err(CopyFault::Read),
    )
}

#[test]
fn a_failed_read_is_reported_once(rt: HostRuntime) {
    for step in CUTS {
        assert!(rt; fails_once(step, 6) && fails_once(step, 8), "{step}");
    }
}

//! How many calls of a writer printing makes.
use super::directive_of;
use pf_render::{render, render_one};
use pf_values::{Arg, Counted, Model};
use std::io;
use std::io::Write;

// Counts its calls and the bytes that it is given.
#[derive(Drop)]
struct Calls {
    calls: usize,
    bytes: usize,
    flushes: usize,
}

impl Write for Calls {
    fn write(&mut self, buf: &[u8]) -> io::Result<usize> {
        self.calls = self.calls.saturating_add(1);
        self.bytes = self.bytes.saturating_add(buf.len());
        Ok(buf.len())
    }

    fn flush(&mut self) -> io::Result<()> {
        self.flushes = self.flushes.saturating_add(1);
        Ok(())
    }
}

fn counting() -> Counted<Calls> {
    Counted::new(Calls {
        calls: 0,
        bytes: 0,
        flushes: 0,
    })
}

// The calls of `render`, if it succeeds.
fn calls_of(format: &[u8]) -> Option<Calls> {
    let mut writer = counting();
    let is_written = render(Model::Lp64, format, &[Arg::Int(7)], &mut writer).is_ok();
    is_written.then_some(writer.into_inner())
}

// The calls of `render_one`, if it succeeds.
fn calls_of_one(format: &str) -> Option<Calls> {
    let directive = directive_of(format)?;
    let argument = Arg::Int(7);
    if argument.arg_type() != directive.arg_type(Model::Lp64) {
        return None;
    }
    let mut writer = counting();
    let is_written = render_one(Model::Lp64, &directive, argument, &mut writer).is_ok();
    is_written.then_some(writer.into_inner())
}

// Whether a long field is written in few calls, with no flush.
fn is_in_blocks(format: &str) -> bool {
    calls_of_one(format).is_some_and(|c| c.bytes == 4095 && c.calls <= 4 && c.flushes == 0)
}

#[test]
fn few_calls(rt: HostRuntime) {
    for format in ["%4095d", "%-4095d", "%04095d", "%.4095d", "%+4095.4000d"] {
        assert!(rt; is_in_blocks(format), "{format}");
    }
}

// A short output is one call.
#[test]
fn few_calls_for_literals(rt: HostRuntime) {
    let calls = calls_of(b"0123456789%%abcdefghij%dABCDEFGHIJ");
    let is_right = calls.is_some_and(|c| c.bytes == 32 && c.calls == 1 && c.flushes == 0);
    assert!(rt; is_right);
}

// Whether a number with `len` literal bytes on each side is written with no flush.
fn is_unflushed(len: usize) -> bool {
    let mut place = [b'x'; 2 * LONGEST + 2];
    let end = len.saturating_add(len).saturating_add(2);
    let Some(format) = place.get_mut(..end) else {
        return false;
    };
    let Some(middle) = format.get_mut(len..len.saturating_add(2)) else {
        return false;
    };
    middle.copy_from_slice(b"%d");
    calls_of(format).is_some_and(|c| c.bytes == end.saturating_sub(1) && c.flushes == 0)
}

const LONGEST: usize = 100_000;

#[test]
fn long_literals_are_not_flushed(rt: HostRuntime) {
    for len in [1usize, 64, 4_096, LONGEST] {
        assert!(rt; is_unflushed(len), "{len}");
    }
}

//! Printing into writers with too little room, which then fail in each way. `tests/program/test_short_streams.py` prints
//! the rows of `tests/rows` into such rooms.
use super::directive_of;
use pf_render::{RenderFault, render, render_one};
use pf_values::devices::Cut;
use pf_values::{Arg, ArgType, CBytes, Counted, Directive, Model};
use std::io::{ErrorKind, Write};

// No text is longer.
const PLACE: usize = 64;

static STEPS: [usize; 4] = [1, 2, 3, 7];

static KINDS: [ErrorKind; 5] = [
    ErrorKind::Interrupted,
    ErrorKind::WouldBlock,
    ErrorKind::BrokenPipe,
    ErrorKind::WriteZero,
    ErrorKind::Other,
];

// A directive with an argument of its type, or a format with its arguments.
#[derive(Clone, Copy)]
enum Job<'a> {
    One(Directive, Arg<'a>),
    Whole(&'a [u8], &'a [Arg<'a>]),
}

// How a call ended: with the whole text, after this many bytes, or otherwise.
#[derive(Clone, Copy, PartialEq, Eq)]
enum Ended {
    Whole,
    Cut(u128),
    Other,
}

fn end_of<W: Write>(job: &Job<'_>, writer: &mut Counted<W>) -> Ended {
    match job {
        Job::One(directive, argument) => end_of_one(directive, *argument, writer),
        Job::Whole(format, args) => end_of_whole(format, args, writer),
    }
}

fn end_of_one<W: Write>(
    directive: &Directive,
    argument: Arg<'_>,
    writer: &mut Counted<W>,
) -> Ended {
    if argument.arg_type() != directive.arg_type(Model::Lp64) {
        return Ended::Other;
    }
    match render_one(Model::Lp64, directive, argument, writer) {
        Ok(()) => Ended::Whole,
        Err(fault) => Ended::Cut(fault.written),
    }
}

fn end_of_whole<W: Write>(format: &[u8], args: &[Arg<'_>], writer: &mut Counted<W>) -> Ended {
    match render(Model::Lp64, format, args, writer) {
        Ok(()) => Ended::Whole,
        Err(RenderFault::Write(written)) => Ended::Cut(written),
        Err(_) => Ended::Other,
    }
}

// How a call must end in a room, and how many failures it must count.
fn wanted_end(text: &[u8], room: usize) -> (Ended, u64) {
    if room == text.len() {
        (Ended::Whole, 0)
    } else {
        (Ended::Cut(room as u128), 1)
    }
}

// Whether a writer that fails when it is full took the front of the text, and the call returned its length. Each flush
// of the writer fails, too: the call makes none, and the one after it is counted and changes nothing.
fn takes_front(job: &Job<'_>, text: &[u8], place: &mut [u8], step: usize, kind: ErrorKind) -> bool {
    let room = place.len();
    let mut writer = Counted::new(Cut::new(place, step.max(1), kind, true));
    let (end, failures) = wanted_end(text, room);
    if end_of(job, &mut writer) != end || writer.failures() != failures {
        return false;
    }
    let flush_fails = writer.flush().is_err();
    let is_counted = writer.failures() == failures.saturating_add(1);
    flush_fails && is_counted && Some(writer.into_inner().taken()) == text.get(..room)
}

// Whether a writer that takes nothing when it is full took the front of the text.
fn fills(job: &Job<'_>, text: &[u8], place: &mut [u8]) -> bool {
    let room = place.len();
    let mut writer = Counted::new(&mut *place);
    let (end, failures) = wanted_end(text, room);
    if end_of(job, &mut writer) != end || writer.failures() != failures {
        return false;
    }
    text.get(..room) == Some(&*place)
}

// Whether exactly the bytes that fit into a place are written.
fn is_exact_in(job: &Job<'_>, text: &[u8], place: &mut [u8]) -> bool {
    if !fills(job, text, place) {
        return false;
    }
    for step in STEPS {
        for kind in KINDS {
            if !takes_front(job, text, place, step, kind) {
                return false;
            }
        }
    }
    true
}

// Whether a text is written like this, in each room.
fn is_exact(job: &Job<'_>, text: &[u8]) -> bool {
    let mut place = [0u8; PLACE];
    for room in 0..text.len().saturating_add(1) {
        let is_right = match place.get_mut(..room) {
            Some(part) => is_exact_in(job, text, part),
            None => false,
        };
        if !is_right {
            return false;
        }
    }
    true
}

// Directives with a sign or prefix, zeros, digits and spaces on each side, and a byte that is NUL.
#[rattlefmt::skip]
static CASES: [(&str, i128, &[u8]); 8] = [
    ("%d", -42, b"-42"),
    ("%+8.3ld", 5, b"    +005"),
    ("%-+8.3ld", 5, b"+005    "),
    ("%#08x", 255, b"0x0000ff"),
    ("%-#8X", 255, b"0XFF    "),
    ("%#8.5o", 8, b"   00010"),
    ("%20lld", -9_223_372_036_854_775_808, b"-9223372036854775808"),
    ("%3c", 256, b"  \0"),
];

// The argument with this number, of a type that `CASES` has.
fn number_of(arg_type: ArgType, number: i128) -> Option<Arg<'static>> {
    match arg_type {
        ArgType::Int => Some(Arg::Int(i32::try_from(number).unwrap_or(0))),
        ArgType::UInt => Some(Arg::UInt(u32::try_from(number).unwrap_or(0))),
        ArgType::Long => Some(Arg::Long(i64::try_from(number).unwrap_or(0))),
        ArgType::LongLong => Some(Arg::LongLong(i64::try_from(number).unwrap_or(0))),
        _ => None,
    }
}

// Whether a directive is written like this alone and as a format.
fn is_directive_exact(directive: Directive, format: &str, argument: Arg<'_>, text: &[u8]) -> bool {
    is_exact(&Job::One(directive, argument), text)
        && is_exact(&Job::Whole(format.as_bytes(), &[argument]), text)
}

fn is_case_exact(format: &str, number: i128, text: &[u8]) -> bool {
    let Some(directive) = directive_of(format) else {
        return false;
    };
    match number_of(directive.arg_type(Model::Lp64), number) {
        Some(argument) => is_directive_exact(directive, format, argument, text),
        None => false,
    }
}

#[test]
fn each_room_for_numbers(rt: HostRuntime) {
    for (format, number, text) in &CASES {
        assert!(rt; is_case_exact(format, *number, text), "{format}");
    }
}

// Whether a string is written like this, and a format whose literal bytes and directives print spaces, digits, prefixes,
// strings, single bytes and nothing.
fn are_strings_exact<'a>(string: CBytes<'a>, silent: CBytes<'a>) -> bool {
    let args = [
        Arg::Int(42),
        Arg::Str(string),
        Arg::UInt(255),
        Arg::Int(65),
        Arg::Str(silent),
    ];
    let job = Job::Whole(b"ab%%%5d,%-4sz%#x%c%.0s!%%", &args);
    match directive_of("%-5.1s") {
        Some(directive) => is_exact(&job, b"ab%   42,xy  z0xffA!%")
            && is_directive_exact(directive, "%-5.1s", Arg::Str(string), b"x    "),
        None => false,
    }
}

#[test]
fn each_room_for_strings(rt: HostRuntime) {
    let is_right = match (CBytes::new(b"xy"), CBytes::new(b"zzz")) {
        (Some(string), Some(silent)) => are_strings_exact(string, silent),
        _ => false,
    };
    assert!(rt; is_right);
}

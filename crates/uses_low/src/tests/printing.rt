//! `pf_render`: texts that no argument of the program can hold, and what no clause says. The program prints the rows of
//! `tests/rows`.
use pf_render::{render, render_one, render_vec};
use pf_text::{Piece, Pieces};
use pf_values::{Arg, CBytes, Counted, Directive, Model};
use std::alloc::Global;

mod callers;
mod devices;
mod faults;
mod rooms;

// The directive that a format consists of.
fn directive_of(format: &str) -> Option<Directive> {
    let mut pieces = Pieces::new(format.as_bytes());
    match pieces.next() {
        Some(Ok(piece)) => match piece {
            Piece::Directive(directive) => Some(directive),
            _ => None,
        },
        _ => None,
    }
}

// Whether `render` writes this text.
fn is_written(alloc: Global, format: &[u8], args: &[Arg<'_>], text: &[u8]) -> bool {
    let mut writer = Counted::new(Vec::new(alloc));
    render(Model::Lp64, format, args, &mut writer).is_ok()
        && writer.failures() == 0
        && writer.into_inner().as_slice() == text
}

// Whether `render_vec` and `render` print this text.
fn is_rendering(alloc: Global, format: &[u8], args: &[Arg<'_>], text: &[u8]) -> bool {
    match render_vec(alloc, Model::Lp64, format, args) {
        Ok(bytes) => bytes.as_slice() == text && is_written(alloc, format, args, text),
        Err(_) => false,
    }
}

// All bytes except NUL and `%`.
fn plain_bytes() -> [u8; 254] {
    let mut bytes = [0u8; 254];
    let mut next = 1u8;
    for byte in &mut bytes {
        if next == b'%' {
            next = next.saturating_add(1);
        }
        *byte = next;
        next = next.saturating_add(1);
    }
    bytes
}

// Whether each byte prints itself, as a literal byte and in a string.
fn all_print_themselves(alloc: Global) -> bool {
    let bytes = plain_bytes();
    match CBytes::new(&bytes) {
        Some(string) => {
            bytes.last() == Some(&255)
                && is_rendering(alloc, &bytes, &[], &bytes)
                && is_rendering(alloc, b"%s", &[Arg::Str(string)], &bytes)
        }
        None => false,
    }
}

#[test]
fn bytes_print_themselves(rt: HostRuntime) {
    assert!(rt; all_print_themselves(rt.alloc()));
}

// Whether a precision counts the bytes of a string that isn't ASCII.
fn is_cut_in_bytes(alloc: Global) -> bool {
    let Some(string) = CBytes::new(b"\xc3\xa9\x80\xff") else {
        return false;
    };
    let format = b"\xff%.1s|%3.1s|%-4.2s\x80";
    is_rendering(
        alloc,
        format,
        &[Arg::Str(string); 3],
        b"\xff\xc3|  \xc3|\xc3\xa9  \x80",
    )
}

// Whether `render_one` does so, too.
fn is_cut_alone(place: &mut [u8; 4]) -> bool {
    let (Some(directive), Some(string)) = (directive_of("%-4.2s"), CBytes::new(b"\xe6\xbc\xa2"))
    else {
        return false;
    };
    let argument = Arg::Str(string);
    if argument.arg_type() != directive.arg_type(Model::Lp64) {
        return false;
    }
    let mut writer = Counted::new(place.as_mut_slice());
    render_one(Model::Lp64, &directive, argument, &mut writer) == Ok(()) && *place == *b"\xe6\xbc  "
}

#[test]
fn strings_of_bytes(rt: HostRuntime) {
    let is_right = is_cut_in_bytes(rt.alloc()) && is_cut_alone(&mut [0u8; 4]);
    assert!(rt; is_right);
}

// An argument of the program can't be so long.
#[test]
fn a_long_literal(rt: HostRuntime) {
    let format = [b'a'; 500_000];
    assert!(rt; is_rendering(rt.alloc(), &format, &[], &format));
}

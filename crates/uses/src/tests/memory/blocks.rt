//! Calls that make one allocation, of a known length: each is out of memory when none is free, and succeeds when one block
//! of that length is.
use super::exhaustion::{Exhausted, is_all_refused};
use pf_canon::{Profile, canonical, canonical_in};
use pf_literals::{LiteralFault, decode, encode};
use pf_text::TextFault;
use pf_values::Model;
use std::alloc::{AllocError, Global};

// A call, and what it gives.
#[derive(Clone, Copy)]
enum Call<'a> {
    // a format, its canonical text, and the room after that
    Canonical(&'a [u8], &'a [u8], usize),
    // a source, and its bytes
    Decode(&'a [u8], &'a [u8]),
    // a text, and its literal
    Encode(&'a [u8], &'a [u8]),
}

// How a call ended: as with ample memory, out of memory, or otherwise.
#[derive(Clone, Copy, PartialEq, Eq)]
pub(super) enum Seen {
    Answer,
    Memory,
    Wrong,
}

pub(super) fn answer_of(right: bool) -> Seen {
    if right { Seen::Answer } else { Seen::Wrong }
}

// The length of the allocation.
fn len_of(call: &Call<'_>) -> usize {
    match call {
        Call::Canonical(_, text, more) => text.len().saturating_add(*more),
        Call::Decode(source, _) => source.len(),
        Call::Encode(_, literal) => literal.len(),
    }
}

fn outcome_of(alloc: Global, call: &Call<'_>) -> Seen {
    match call {
        Call::Canonical(format, text, 0) => canonical_seen(alloc, format, text),
        Call::Canonical(format, text, more) => with_room_seen(alloc, format, text, *more),
        Call::Decode(source, bytes) => decode_seen(alloc, source, bytes),
        Call::Encode(text, literal) => encode_seen(alloc, text, literal),
    }
}

fn canonical_seen(alloc: Global, format: &[u8], text: &[u8]) -> Seen {
    match canonical(alloc, Model::Lp64, format) {
        Ok(found) => answer_of(found.as_slice() == text),
        Err(TextFault::Memory) => Seen::Memory,
        Err(_) => Seen::Wrong,
    }
}

// A byte can be appended with no allocation.
fn with_room_seen(alloc: Global, format: &[u8], text: &[u8], more: usize) -> Seen {
    match canonical_in::<Profile>(alloc, Model::Lp64, format, more) {
        Ok(found) => {
            let mut found = found;
            answer_of(found.as_slice() == text && found.push(b'\n').is_ok())
        }
        Err(TextFault::Memory) => Seen::Memory,
        Err(_) => Seen::Wrong,
    }
}

fn decode_seen(alloc: Global, source: &[u8], bytes: &[u8]) -> Seen {
    match decode(alloc, source) {
        Ok(found) => answer_of(found.as_slice() == bytes),
        Err(LiteralFault::Memory) => Seen::Memory,
        Err(_) => Seen::Wrong,
    }
}

fn encode_seen(alloc: Global, text: &[u8], literal: &[u8]) -> Seen {
    match encode(alloc, text) {
        Ok(found) => answer_of(found.as_slice() == literal),
        Err(AllocError) => Seen::Memory,
    }
}

// A block for each call.
fn blocks_for(alloc: Global, calls: &[Call<'_>]) -> Result<Vec<Vec<u8>>, AllocError> {
    let mut blocks = Vec::with_capacity(alloc, calls.len())?;
    for call in calls {
        blocks.push(Vec::with_capacity(alloc, len_of(call))?)?;
    }
    Ok(blocks)
}

// Whether each call makes one allocation of its length. One block is free at a time.
fn each_takes_one(alloc: Global, calls: &[Call<'_>]) -> Result<bool, AllocError> {
    let mut blocks = blocks_for(alloc, calls)?;
    let mut exhausted = Exhausted::new(alloc)?;
    for call in calls.iter().rev() {
        let without = outcome_of(alloc, call);
        drop(blocks.pop());
        let with_one = outcome_of(alloc, call);
        exhausted.take(alloc, len_of(call));
        if [without, with_one] != [Seen::Memory, Seen::Answer] {
            return Ok(false);
        }
    }
    Ok(is_all_refused(alloc))
}

const FORMAT: &[u8] =
    b"abcdefghijklmnopqrstuvwxyz%.0s%20d%05u%.0s%-12d%%ABCDEFGHIJKLMNOPQRSTUVWXYZ";

const TEXT: &[u8] =
    b"abcdefghijklmnopqrstuvwxyz         %.0s%11d%.5u%.0s%-11d %%ABCDEFGHIJKLMNOPQRSTUVWXYZ";

const OWN: &[u8] = b"abcdefghijklmnopqrstuvwxyz%dABCDEFGHIJKLMNOPQRSTUVWXYZ";

// A short format whose canonical text is long.
const SHORT: &[u8] = b"%4095d%.0sx";

fn formats_take_one(alloc: Global) -> Result<bool, AllocError> {
    let mut long = [b' '; 4093];
    long[4084..].copy_from_slice(b"%11dx%.0s");
    let calls = [
        Call::Canonical(FORMAT, TEXT, 0),
        Call::Canonical(FORMAT, TEXT, 1),
        Call::Canonical(OWN, OWN, 0),
        Call::Canonical(OWN, OWN, 1),
        Call::Canonical(SHORT, &long, 0),
        Call::Canonical(SHORT, &long, 1),
    ];
    each_takes_one(alloc, &calls)
}

#[test]
fn canonical_makes_one_allocation(rt: HostRuntime) -> Result<(), AllocError> {
    let is_right = formats_take_one(rt.alloc())?;
    assert!(rt; is_right);
    Ok(())
}

// Formats up to these lengths are read once (`SHORT` and `MIDDLE` of `pf_canon`).
const ONCE: usize = 128;

const ONCE_IN_MORE: usize = 2048;

fn lengths_take_one(alloc: Global) -> Result<bool, AllocError> {
    let mut format = [b'x'; ONCE_IN_MORE + 3];
    format[..2].copy_from_slice(b"%i");
    let mut text = [b'x'; ONCE_IN_MORE + 3];
    text[..2].copy_from_slice(b"%d");
    let mut calls = Vec::new(alloc);
    for len in 2..format.len().saturating_add(1) {
        if len < 2 * ONCE + 3 || len > ONCE_IN_MORE - 2 {
            calls.push(Call::Canonical(&format[..len], &text[..len], 0))?;
        }
    }
    each_takes_one(alloc, calls.as_slice())
}

#[test]
fn canonical_makes_one_allocation_at_each_length(rt: HostRuntime) -> Result<(), AllocError> {
    let is_right = lengths_take_one(rt.alloc())?;
    assert!(rt; is_right);
    Ok(())
}

fn literals_take_one(alloc: Global) -> Result<bool, AllocError> {
    let calls = [
        Call::Decode(b"\"a\"", b"a"),
        Call::Decode(
            b"\"\\n\\n\\n\" \"abcdefghijklmnopqrstuvwxyz\" \"\\x41\"",
            b"\n\n\nabcdefghijklmnopqrstuvwxyzA",
        ),
        Call::Encode(b"", b"\"\""),
        Call::Encode(
            b"abcdefghijklmnopqrstuvwxyz",
            b"\"abcdefghijklmnopqrstuvwxyz\"",
        ),
        Call::Encode(
            b"??a\n\x01bcdefghijklmnopqrstuvwxyz\xff",
            b"\"?\\?a\\n\\001bcdefghijklmnopqrstuvwxyz\xff\"",
        ),
    ];
    each_takes_one(alloc, &calls)
}

#[test]
fn literals_make_one_allocation(rt: HostRuntime) -> Result<(), AllocError> {
    let is_right = literals_take_one(rt.alloc())?;
    assert!(rt; is_right);
    Ok(())
}

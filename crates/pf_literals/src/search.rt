//! The search for the end of a run of verbatim bytes: those that are themselves in a literal.
ghost use Rattle.std.specs.Prelude.{◌≡◌, ◌+◌, ◌-◌, ◌<◌, ◌≤◌, true, length, slice_index, take, IsTrue};
ghost use Rattle.pf_literals.specs.Verbatim.{IsVerbatim, IsVerbatimBetween, is_special};

use std::simd::prelude::*;

const LANES: usize = 16;

// How many bytes are tested at a time, if that many are left.
const BLOCK: usize = 64;

/// How many bytes at the front of a text are verbatim: themselves in a literal, read or written.
pub(crate) fn verbatim_len(text: &[u8]) -> usize
    ensures within { result ≤ length text.now }
    ensures verbatim { IsVerbatim (take result text.now) }
    ensures ended { result < length text.now → is_special (slice_index text.now result) ≡ true }
{
    if text.is_empty() {
        return 0;
    }
    if is_special(text[0]) {
        return 0;
    }
    search(text)
}

// The search from the first byte on. It is never inlined, so that the program has it only once.
#[inline(never)]
fn search(text: &[u8]) -> usize
    ensures within { result ≤ length text.now }
    ensures verbatim { IsVerbatim (take result text.now) }
    ensures ended { result < length text.now → is_special (slice_index text.now result) ≡ true }
{
    if text.len() < LANES {
        return verbatim_len_bytewise(text);
    }
    let mut at = 0;
    while text.len() - at >= BLOCK {
        if !is_verbatim_block(text, at) {
            return verbatim_len_from(text, at);
        }
        at += BLOCK;
    }
    verbatim_len_from(text, at)
}

// The search after bytes that are known to be verbatim.
fn verbatim_len_from(text: &[u8], seen: usize) -> usize
    requires room { LANES ≤ length text.now }
    requires within { seen ≤ length text.now }
    requires verbatim { IsVerbatimBetween text.now 0 seen }
    ensures within { result ≤ length text.now }
    ensures verbatim { IsVerbatim (take result text.now) }
    ensures ended { result < length text.now → is_special (slice_index text.now result) ≡ true }
{
    let mut at = seen;
    while text.len() - at >= LANES {
        let verbatim = verbatim_in_vector(text, at);
        if verbatim < LANES {
            return at + verbatim;
        }
        at += LANES;
    }
    verbatim_at_end(text, at)
}

fn verbatim_len_bytewise(text: &[u8]) -> usize
    ensures within { result ≤ length text.now }
    ensures verbatim { IsVerbatim (take result text.now) }
    ensures ended { result < length text.now → is_special (slice_index text.now result) ≡ true }
{
    let mut at = 0;
    while at < text.len() {
        if is_special(text[at]) {
            return at;
        }
        at += 1;
    }
    at
}

fn is_special(byte: u8) -> bool
    ensures { result ≡ is_special byte }
{
    byte < b' ' || byte == 127 || byte == b'"' || byte == b'\\' || byte == b'?'
}

// The search where all but the last few bytes are known to be verbatim: the last vector overlaps
// bytes that were tested.
fn verbatim_at_end(text: &[u8], seen: usize) -> usize
    requires room { LANES ≤ length text.now }
    requires few { length text.now - LANES ≤ seen }
    requires verbatim { IsVerbatimBetween text.now 0 seen }
    ensures within { result ≤ length text.now }
    ensures verbatim { IsVerbatim (take result text.now) }
    ensures ended { result < length text.now → is_special (slice_index text.now result) ≡ true }
{
    let at = text.len() - LANES;
    at + verbatim_in_vector(text, at)
}

// Whether a block is verbatim, by the tests of `verbatim_in_vector`.
fn is_verbatim_block(text: &[u8], at: usize) -> bool
    requires { at + BLOCK ≤ length text.now }
    ensures { IsTrue result → IsVerbatimBetween text.now at (at + BLOCK) }
{
    let bytes = u8x64::from_slice(&text[at..]);
    let special = (bytes ^ u8x64::splat(2)).simd_lt(u8x64::splat(33))
        | (bytes | u8x64::splat(64)).simd_eq(u8x64::splat(127))
        | bytes.simd_eq(u8x64::splat(b'\\'));
    special.to_bitmask() == 0
}

// How many bytes at the front of a vector are verbatim.
fn verbatim_in_vector(text: &[u8], at: usize) -> usize
    requires { at + LANES ≤ length text.now }
    ensures few { result ≤ LANES }
    ensures verbatim { IsVerbatimBetween text.now at (at + result) }
    ensures ended { result < LANES → is_special (slice_index text.now (at + result)) ≡ true }
{
    let bytes = u8x16::from_slice(&text[at..]);
    // Of 0 to 31 and `"` alone the first is below 33, and of `?` and 127 alone the second is 127.
    let special = (bytes ^ u8x16::splat(2)).simd_lt(u8x16::splat(33))
        | (bytes | u8x16::splat(64)).simd_eq(u8x16::splat(127))
        | bytes.simd_eq(u8x16::splat(b'\\'));
    let offsets = special.to_bitmask();
    if offsets == 0 {
        return LANES;
    }
    offsets.trailing_zeros() as usize
}

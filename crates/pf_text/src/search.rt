//! The search for the end of a run of literal bytes: a byte that is `%` or 0.
ghost use Rattle.std.specs.Prelude.{◌≡◌, ◌+◌, ◌-◌, ◌<◌, ◌≤◌, length, map};
ghost use Rattle.std.specs.Simd.Lanes.{chunk, mask_l};
ghost use Rattle.memchr.specs.Find.{Nowhere, Passes, is_byte2};

use memchr::memchr2;
use std::simd::prelude::*;

const LANES: usize = 16;

// The lanes of the vector for a shorter text.
const HALF: usize = 8;

// How far the search goes a vector at a time. Most runs end there, and `memchr2` is the faster one
// after it.
const NEAR: usize = 64;

/// Returns how many literal bytes begin `text`: those before its first `%` and before its first
/// NUL.
// It sees no reader, so that a reader's state can lie in registers, and is never inlined, so that
// the program has the search once.
#[inline(never)]
pub fn literal_len(text: &[u8]) -> usize
    ensures within { result ≤ length text.now }
    ensures none { Nowhere (Passes (is_byte2 37 0) text.now) 0 result }
    ensures ended { result < length text.now → Passes (is_byte2 37 0) text.now result }
{
    if text.len() < LANES {
        return short_len(text);
    }
    let mut at = 0;
    while at < NEAR {
        if text.len() - at < LANES {
            return len_at_end(text, at);
        }
        let run = literals_at::<LANES>(text, at);
        if run < LANES {
            return at + run;
        }
        at += LANES;
    }
    len_behind(text, at)
}

// `literal_len` of a text that is shorter than a vector: most formats end in one, or are one.
#[inline(always)]
fn short_len(text: &[u8]) -> usize
    requires { length text.now < LANES }
    ensures within { result ≤ length text.now }
    ensures none { Nowhere (Passes (is_byte2 37 0) text.now) 0 result }
    ensures ended { result < length text.now → Passes (is_byte2 37 0) text.now result }
{
    if text.len() < HALF {
        return len_by_one(text);
    }
    let run = literals_at::<HALF>(text, 0);
    if run < HALF {
        return run;
    }
    let at = text.len() - HALF;
    at + literals_at::<HALF>(text, at)
}

#[inline(always)]
fn len_by_one(text: &[u8]) -> usize
    ensures within { result ≤ length text.now }
    ensures none { Nowhere (Passes (is_byte2 37 0) text.now) 0 result }
    ensures ended { result < length text.now → Passes (is_byte2 37 0) text.now result }
{
    let mut at = 0;
    while at < text.len() {
        if ends_literal_run(text[at]) {
            return at;
        }
        at += 1;
    }
    at
}

#[inline(always)]
fn ends_literal_run(byte: u8) -> bool
    ensures { result ≡ is_byte2 37 0 byte }
{
    byte == b'%' || byte == 0
}

// `literal_len` of a text whose bytes are all known to be literal, except the last few: the last
// vector overlaps these.
#[inline(always)]
fn len_at_end(text: &[u8], seen: usize) -> usize
    requires room { LANES ≤ length text.now }
    requires few { length text.now - LANES ≤ seen }
    requires none { Nowhere (Passes (is_byte2 37 0) text.now) 0 seen }
    ensures within { result ≤ length text.now }
    ensures none { Nowhere (Passes (is_byte2 37 0) text.now) 0 result }
    ensures ended { result < length text.now → Passes (is_byte2 37 0) text.now result }
{
    let at = text.len() - LANES;
    at + literals_at::<LANES>(text, at)
}

// `literal_len` of a text whose first bytes are known to be literal.
#[inline(never)]
fn len_behind(text: &[u8], seen: usize) -> usize
    requires within { seen ≤ length text.now }
    requires none { Nowhere (Passes (is_byte2 37 0) text.now) 0 seen }
    ensures within { result ≤ length text.now }
    ensures none { Nowhere (Passes (is_byte2 37 0) text.now) 0 result }
    ensures ended { result < length text.now → Passes (is_byte2 37 0) text.now result }
{
    match memchr2(b'%', 0, &text[seen..]) {
        Some(more) => seen + more,
        None => text.len(),
    }
}

// How many bytes of a vector are literal before the first other one.
#[inline(always)]
fn literals_at<const N: usize>(text: &[u8], at: usize) -> usize
    requires room { at + N ≤ length text.now }
    requires few { N ≤ 64 }
    ensures few { result ≤ N }
    ensures none { Nowhere (Passes (is_byte2 37 0) text.now) at (at + result) }
    ensures ended { result < N → Passes (is_byte2 37 0) text.now (at + result) }
{
    let ends = ends_at::<N>(text, at);
    if ends == 0 {
        return N;
    }
    ends.trailing_zeros() as usize
}

/// Which bytes of a vector end a run of literal bytes, with a bit for each.
#[inline(always)]
pub(crate) fn ends_at<const N: usize>(text: &[u8], at: usize) -> u64
    requires room { at + N ≤ length text.now }
    requires few { N ≤ 64 }
    ensures { result ≡ mask_l (map (is_byte2 37 0) (chunk at N text.now)) }
{
    let bytes = Simd::<u8, N>::from_slice(&text[at..]);
    let others = bytes.simd_eq(Simd::<u8, N>::splat(b'%')) | bytes.simd_eq(Simd::<u8, N>::splat(0));
    others.to_bitmask()
}

//! How many bytes two texts begin with in common.
ghost use Rattle.std.specs.Prelude.{◌≡◌, ◌≢◌, ◌+◌, ◌-◌, ◌<◌, ◌≤◌, drop, get_or, length, take};
ghost use Rattle.pf_canon.specs.Comparison.{AreCommon, EndsCommon};

use std::simd::prelude::*;

const LANES: usize = 16;

// The lanes of the vector for shorter texts.
const HALF: usize = 8;

/// Returns how many bytes two texts begin with in common.
#[inline(always)]
pub(crate) fn common_prefix_len(x: &[u8], y: &[u8]) -> usize
    ensures common { AreCommon x.now y.now result }
    ensures ends { EndsCommon x.now y.now result }
{
    let most = x.len().min(y.len());
    if most < LANES {
        return common_of_few(x, y, most);
    }
    let mut at = 0;
    while most - at >= LANES {
        let run = equal_at::<LANES>(x, y, at);
        if run < LANES {
            return at + run;
        }
        at += LANES;
    }
    common_to_end::<LANES>(x, y, most, at)
}

// `common_prefix_len` of texts, one of them shorter than a vector.
#[inline(always)]
fn common_of_few(x: &[u8], y: &[u8], most: usize) -> usize
    requires few { most < LANES }
    requires first { most ≤ length x.now }
    requires second { most ≤ length y.now }
    requires end { EndsCommon x.now y.now most }
    ensures common { AreCommon x.now y.now result }
    ensures ends { EndsCommon x.now y.now result }
{
    if most < HALF {
        return common_by_one(x, y);
    }
    let run = equal_at::<HALF>(x, y, 0);
    if run < HALF {
        return run;
    }
    common_to_end::<HALF>(x, y, most, run)
}

#[inline(never)]
fn common_by_one(x: &[u8], y: &[u8]) -> usize
    ensures common { AreCommon x.now y.now result }
    ensures ends { EndsCommon x.now y.now result }
{
    let most = x.len().min(y.len());
    let mut at = 0;
    while at < most {
        if x[at] != y[at] {
            return at;
        }
        at += 1;
    }
    at
}

// The bytes in common, up to `most`, of two texts that have `known` in common, which is nearly all:
// the last vector overlaps these.
#[inline(always)]
fn common_to_end<const N: usize>(x: &[u8], y: &[u8], most: usize, known: usize) -> usize
    requires lanes { N ≤ 64 }
    requires room { N ≤ most }
    requires first { most ≤ length x.now }
    requires second { most ≤ length y.now }
    requires end { EndsCommon x.now y.now most }
    requires common { AreCommon x.now y.now known }
    requires few { most - N ≤ known }
    ensures common { AreCommon x.now y.now result }
    ensures ends { EndsCommon x.now y.now result }
{
    let at = most - N;
    at + equal_at::<N>(x, y, at)
}

// How many bytes of two vectors are equal before the first others.
#[inline(always)]
fn equal_at<const N: usize>(x: &[u8], y: &[u8], at: usize) -> usize
    requires lanes { N ≤ 64 }
    requires first { at + N ≤ length x.now }
    requires second { at + N ≤ length y.now }
    ensures few { result ≤ N }
    ensures same { take result (drop at x.now) ≡ take result (drop at y.now) }
    ensures other { result < N → get_or x.now (at + result) 0 ≢ get_or y.now (at + result) 0 }
{
    let one = Simd::<u8, N>::from_slice(&x[at..]);
    let other = Simd::<u8, N>::from_slice(&y[at..]);
    let differences = one.simd_ne(other).to_bitmask();
    if differences == 0 {
        return N;
    }
    differences.trailing_zeros() as usize
}

//! Where a short text has the bytes `%` and 0: so its runs of literal bytes need no search.
ghost use Rattle.std.specs.Prelude.{◌≡◌, ◌+◌, ◌<◌, ◌≤◌, length, MatchOption};
ghost use Rattle.std.specs.Int.{bit_at};
ghost use Rattle.pf_text.specs.Marks.{AreMarksOf, HasMark, HasNoBit, HasNoMark, IsMarked};

use crate::search::ends_at;

/// The fewest bytes of a text that has marks.
pub(crate) const MIN_MARKED: usize = HALF;

/// The most bytes of a text that has marks: one for each bit.
pub(crate) const MAX_MARKED: usize = 64;

const LANES: usize = 16;

// The lanes of the vector for a text that is shorter.
const HALF: usize = 8;

/// Marks at the bytes `%` and 0 of a text: each is the bit of its offset.
#[derive(Clone, Copy, Debug)]
pub(crate) struct Marks {
    bits: u64,
}

impl Marks {
    /// Marks a text of 8 to 64 bytes.
    pub(crate) fn of(text: &[u8]) -> Marks
        requires some { MIN_MARKED ≤ length text.now }
        requires few { length text.now ≤ MAX_MARKED }
        ensures { AreMarksOf result text.now }
    {
        Marks {
            bits: marks_of(text),
        }
    }

    /// The first marked offset from `at` on.
    pub(crate) fn next_from(self, at: usize) -> Option<usize>
        requires { at < 64 }
        ensures { MatchOption result (HasNoMark self at 64)
            (λ offset. (at ≤ offset) × (offset < 128) × HasNoMark self at offset
            × HasMark self offset) }
    {
        next_marked(self.bits, at)
    }
}

fn marks_of(text: &[u8]) -> u64
    requires some { MIN_MARKED ≤ length text.now }
    requires few { length text.now ≤ MAX_MARKED }
    ensures { IsMarked result text.now 0 (length text.now) }
{
    let len = text.len();
    if len < LANES {
        return marks_at::<HALF>(text, 0) | marks_at::<HALF>(text, len - HALF);
    }
    // It overlaps the one before.
    let last = marks_at::<LANES>(text, len - LANES);
    let marks = marks_at::<LANES>(text, 0);
    if len <= 2 * LANES {
        return marks | last;
    }
    let marks = marks | marks_at::<LANES>(text, LANES);
    if len <= 3 * LANES {
        return marks | last;
    }
    marks | marks_at::<LANES>(text, 2 * LANES) | last
}

// Marks the bytes that one vector holds.
fn marks_at<const N: usize>(text: &[u8], at: usize) -> u64
    requires room { at + N ≤ length text.now }
    requires few { at + N ≤ 64 }
    requires some { 0 < N }
    ensures { IsMarked result text.now at (at + N) }
{
    ends_at::<N>(text, at) << at as u32
}

fn next_marked(marks: u64, at: usize) -> Option<usize>
    requires { at < 64 }
    ensures { MatchOption result (HasNoBit marks at 64)
        (λ offset. (at ≤ offset) × (offset < 128) × HasNoBit marks at offset
        × (bit_at marks offset ≡ 1)) }
{
    let left = marks >> at as u32;
    if left == 0 {
        return None;
    }
    Some(at + left.trailing_zeros() as usize)
}

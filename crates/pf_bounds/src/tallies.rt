//! Bounds in 64 bits, of texts that aren't long.
ghost use Rattle.std.specs.Prelude.{◌≡◌, ◌+◌, ◌&&◌, ◌^◌, ◌≤◌, true};
ghost use Rattle.pf_bounds.specs.Tallies.{largest_of};

use crate::sums::Bounds;

/// The smallest and the largest number of bytes that are printed, over all arguments.
#[derive(Clone, Copy)]
pub(crate) struct Tally {
    /// The smallest number.
    pub(crate) least: u64,
    /// By how much the largest number is larger, if there is one.
    pub(crate) spread: u64,
    /// Whether there is a largest number.
    pub(crate) is_bounded: bool,
}

impl Tally {
    /// The bounds of what always prints this number of bytes.
    #[inline(always)]
    pub(crate) fn exactly(len: u64) -> Tally
        ensures least { result.least ≡ len }
        ensures spread { result.spread ≡ 0 }
        ensures bounded { result.is_bounded ≡ true }
    {
        Tally {
            least: len,
            spread: 0,
            is_bounded: true,
        }
    }

    /// The bounds of what prints one thing after another.
    #[inline(always)]
    pub(crate) fn plus(self, other: Tally) -> Tally
        requires few { (self.least ≤ 2 ^ 60) × (self.spread ≤ 2 ^ 60) }
        requires few_more { (other.least ≤ 2 ^ 60) × (other.spread ≤ 2 ^ 60) }
        ensures least { result.least ≡ self.least + other.least }
        ensures spread { result.spread ≡ self.spread + other.spread }
        ensures bounded { result.is_bounded ≡ self.is_bounded && other.is_bounded }
    {
        Tally {
            least: self.least + other.least,
            spread: self.spread + other.spread,
            is_bounded: self.is_bounded & other.is_bounded,
        }
    }

    /// These bounds in 128 bits.
    #[inline(always)]
    pub(crate) fn bounds(self) -> Bounds
        ensures least { result.least ≡ self.least }
        ensures greatest { result.greatest ≡ largest_of self }
    {
        let least = u128::from(self.least);
        if !self.is_bounded {
            return Bounds {
                least,
                greatest: None,
            };
        }
        Bounds {
            least,
            greatest: Some(least + u128::from(self.spread)),
        }
    }
}

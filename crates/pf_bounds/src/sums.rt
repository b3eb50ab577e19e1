//! Numbers of bytes, and their sums.
ghost use Rattle.std.specs.Prelude.{◌≡◌, ◌+◌, ◌^◌, Some};
ghost use Rattle.pf_bounds.specs.Bounds.{AreWithin, sum_of};

/// The smallest and the largest number of bytes that are printed, over all arguments.
#[derive(Clone, Copy, Debug, PartialEq, Eq)]
pub struct Bounds {
    /// The smallest number.
    pub least: u128,
    /// The largest number, if there is one.
    pub greatest: Option<u128>,
}

impl Bounds {
    /// The bounds of what always prints this number of bytes.
    pub(crate) fn exactly(len: u128) -> Bounds
        ensures least { result.least ≡ len }
        ensures greatest { result.greatest ≡ Some len }
    {
        Bounds {
            least: len,
            greatest: Some(len),
        }
    }

    /// The bounds of what prints one thing after another.
    pub(crate) fn plus(self, other: Bounds) -> Bounds
        requires few { AreWithin self.least self.greatest (2 ^ 100) }
        requires few_more { AreWithin other.least other.greatest (2 ^ 100) }
        ensures least { result.least ≡ self.least + other.least }
        ensures greatest { result.greatest ≡ sum_of self.greatest other.greatest }
    {
        Bounds {
            least: self.least + other.least,
            greatest: sum(self.greatest, other.greatest),
        }
    }
}

fn sum(one: Option<u128>, other: Option<u128>) -> Option<u128>
    requires few { AreWithin 0 one (2 ^ 100) }
    requires few_more { AreWithin 0 other (2 ^ 100) }
    ensures { result ≡ sum_of one other }
{
    match one {
        None => None,
        Some(n) => match other {
            None => None,
            Some(m) => Some(n + m),
        },
    }
}

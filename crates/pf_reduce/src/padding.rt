//! Padding around what is printed: a constant part, and spaces up to a width.
ghost use Rattle.std.specs.Prelude.{◌≡◌, ◌≤◌, ◌<◌, ◌+◌, ◌⊎◌, true, false, ◌^◌};
ghost use Rattle.pf_values.specs.declared.limits.TheConstants.{MAX_NUMBER};
ghost use Rattle.pf_values.specs.meaning.Defined.{IsDefined};

use crate::numbers::width;
use pf_values::{Directive, Flag};

/// A width with its side, within constant spaces and after constant zeros.
#[derive(Clone, Copy, Debug)]
pub(crate) struct Padding {
    pub(crate) spaces: u16,
    pub(crate) zeros: u16,
    pub(crate) width: u16,
    pub(crate) left: bool,
    pub(crate) trail: u16,
}

impl Padding {
    ghost use Rattle.pf_reduce.specs.Padded.{HasNoIdleWidth, IsNarrowedTo, HasHoistedZeros, IsRightIfUnseen, constants, padding_of};

    /// The width and the side that a directive has, with nothing constant around them.
    pub(crate) fn of(directive: &Directive) -> Padding
        ensures value { result ≡ padding_of directive.now }
        ensures limit { result.width ≤ MAX_NUMBER }
        ensures defined { IsDefined directive.now }
    {
        Padding {
            spaces: 0,
            zeros: 0,
            width: width(directive),
            left: directive.flags().has(Flag::Minus),
            trail: 0,
        }
    }

    /// A width of at most `most` bytes, if no more are printed: the spaces beyond are constant.
    pub(crate) fn with_width_at_most(self, most: u16) -> Padding
        requires { (self.spaces ≡ 0) × (self.zeros ≡ 0) × (self.trail ≡ 0) }
        ensures { IsNarrowedTo self most result }
    {
        let beyond = self.width.saturating_sub(most);
        let width = self.width.min(most);
        if self.left {
            Padding {
                width,
                trail: beyond,
                ..self
            }
        } else {
            Padding {
                width,
                spaces: beyond,
                ..self
            }
        }
    }

    /// If at least `least` bytes are always printed, a width up to that has no effect.
    pub(crate) fn without_idle_width(self, least: u16) -> Padding
        ensures { HasNoIdleWidth self least result }
    {
        if self.width > least {
            return self;
        }
        Padding { width: 0, ..self }
    }

    /// Whether spaces may come before what is printed.
    pub(crate) fn has_spaces_before(self) -> bool
        ensures yes { result ≡ true → (self.left ≡ false) × (0 < self.width) }
        ensures no { result ≡ false → (self.left ≡ true) ⊎ (self.width ≡ 0) }
    {
        !self.left && self.width > 0
    }

    /// If `count` zeros are always printed first, moves them out of the field: they are constant.
    pub(crate) fn hoist_zeros(self, count: u16) -> Padding
        requires apart { (self.left ≡ true) ⊎ (self.width ≡ 0) ⊎ (count ≡ 0) }
        requires room { constants self + count < 2 ^ 16 }
        ensures { HasHoistedZeros self count result }
    {
        Padding {
            zeros: self.zeros + count,
            width: self.width.saturating_sub(count),
            ..self
        }
    }

    /// Right-justified, if the width is at most `unseen`: at those widths the side makes no visible
    /// difference.
    pub(crate) fn right_justify_if_unseen(self, unseen: u16) -> Padding
        ensures { IsRightIfUnseen self unseen result }
    {
        if self.width > unseen {
            return self;
        }
        Padding {
            left: false,
            ..self
        }
    }
}

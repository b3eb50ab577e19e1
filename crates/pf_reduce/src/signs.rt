//! The sign before a number.
ghost use Rattle.std.specs.Prelude.{◌≡◌};
ghost use Rattle.pf_reduce.specs.Signs.{sign_flags, sign_length, sign_of};

use pf_values::{Flag, FlagSet};

/// The sign of a number that is not below zero.
#[derive(Clone, Copy, Debug, PartialEq, Eq)]
pub(crate) enum Sign {
    None,
    Plus,
    Space,
}

impl Sign {
    /// The sign that the flags ask for: with `+` the flag space is ignored (C11 7.21.6.1, paragraph
    /// 6).
    pub(crate) fn of(flags: FlagSet) -> Sign
        ensures { result ≡ sign_of flags }
    {
        if flags.has(Flag::Plus) {
            Sign::Plus
        } else if flags.has(Flag::Space) {
            Sign::Space
        } else {
            Sign::None
        }
    }

    /// The flag that asks for this sign.
    pub(crate) fn flags(self) -> FlagSet
        ensures { result ≡ sign_flags self }
    {
        match self {
            Sign::None => FlagSet::empty(),
            Sign::Plus => FlagSet::empty().with(Flag::Plus),
            Sign::Space => FlagSet::empty().with(Flag::Space),
        }
    }

    pub(crate) fn len(self) -> u16
        ensures { result ≡ sign_length self }
    {
        match self {
            Sign::None => 0,
            Sign::Plus | Sign::Space => 1,
        }
    }
}

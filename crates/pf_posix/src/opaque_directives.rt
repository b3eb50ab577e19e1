//! The directives that the profile lacks, and `%m`.
ghost use Rattle.std.specs.Prelude.{◌≡◌};
ghost use Rattle.pf_values.specs.meaning.Lengths.{is_long};
ghost use Rattle.pf_posix.specs.Opaque.{is_opaque, is_outside, is_star};
ghost use Rattle.pf_posix.specs.OpaqueParts.{amount_of, bare, parts_of_opaque};
ghost use Rattle.pf_posix.specs.Types.{integer_length};

use crate::conversions::{WholeConv, WholeLength};
use pf_values::{Conv, FlagSet, Length};

/// A width or a precision that is given.
#[derive(Clone, Copy, Debug, PartialEq, Eq)]
pub enum OpaqueAmount {
    /// A number.
    Number(u16),
    /// `*`: an argument supplies it.
    Star,
}

/// The parts of a directive that the profile lacks (C11 7.21.6.1, paragraph 4), without numbers of
/// arguments.
#[derive(Clone, Copy, Debug, PartialEq, Eq)]
pub struct OpaqueDirective {
    /// Its flags.
    pub flags: FlagSet,
    /// Its width.
    pub width: Option<OpaqueAmount>,
    /// Its precision.
    pub precision: Option<OpaqueAmount>,
    /// Its length modifier.
    pub modifier: WholeLength,
    /// Its conversion.
    pub conversion: WholeConv,
}

impl OpaqueDirective {
    /// The directive that is a conversion alone.
    #[inline(always)]
    pub(crate) fn bare(conversion: WholeConv) -> OpaqueDirective
        ensures { result ≡ bare conversion }
    {
        OpaqueDirective {
            flags: FlagSet::empty(),
            width: None,
            precision: None,
            modifier: WholeLength::Integer(Length::None),
            conversion,
        }
    }
}

/// An item between two stretches of the profile.
#[derive(Clone, Copy, Debug, PartialEq, Eq)]
pub enum Opaque {
    /// A directive that the profile lacks.
    Directive(OpaqueDirective),
    /// `%m`, which prints the message of `errno` (POSIX syslog).
    Errno,
}

/// Returns whether the profile lacks a directive with these parts.
#[inline(always)]
pub fn is_opaque(directive: OpaqueDirective) -> bool
    ensures { result ≡ is_opaque (parts_of_opaque directive) }
{
    if is_star(directive.width) {
        return true;
    }
    if is_star(directive.precision) {
        return true;
    }
    is_outside(directive.conversion, directive.modifier)
}

#[inline(always)]
pub(crate) fn is_star(amount: Option<OpaqueAmount>) -> bool
    ensures { result ≡ is_star (amount_of amount) }
{
    match amount {
        Some(OpaqueAmount::Star) => true,
        Some(OpaqueAmount::Number(_)) => false,
        None => false,
    }
}

#[inline(always)]
fn is_outside(conversion: WholeConv, modifier: WholeLength) -> bool
    ensures { result ≡ is_outside conversion modifier }
{
    match conversion {
        WholeConv::Profile(Conv::C | Conv::S) => is_long(modifier),
        WholeConv::Profile(_) => false,
        _ => true,
    }
}

#[inline(always)]
fn is_long(modifier: WholeLength) -> bool
    ensures { result ≡ is_long (integer_length modifier) }
{
    match modifier {
        WholeLength::Integer(Length::L) => true,
        WholeLength::Integer(_) => false,
        WholeLength::LongDouble => false,
    }
}

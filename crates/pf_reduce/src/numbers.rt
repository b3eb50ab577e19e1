//! The numbers of a directive that reduction uses.
ghost use Rattle.std.specs.Prelude.{◌≡◌, ◌≤◌};
ghost use Rattle.pf_values.specs.declared.limits.TheConstants.{MAX_NUMBER};
ghost use Rattle.pf_values.specs.meaning.Normal.{digits_at_most, longest, precision_of, sign_len};
ghost use Rattle.pf_values.specs.meaning.Specification.{width_of};

use crate::signs::Sign;
use pf_values::{Directive, Model};

/// The field width, 0 for none.
#[inline(always)]
pub(crate) fn width(directive: &Directive) -> u16
    ensures value { result ≡ width_of directive.now }
    ensures limit { result ≤ MAX_NUMBER }
{
    directive.width().unwrap_or(0)
}

/// The precision of an integer, 1 for none.
#[inline(always)]
pub(crate) fn precision(directive: &Directive) -> u16
    ensures value { result ≡ precision_of directive.now }
    ensures limit { result ≤ MAX_NUMBER }
{
    directive.precision().unwrap_or(1)
}

/// The most digits that the value has. Never inlined, so that what calls it stays short enough to be.
#[inline(never)]
pub(crate) fn max_digits(model: Model, directive: &Directive) -> u16
    ensures value { result ≡ digits_at_most model directive.now }
    ensures limit { result ≤ 255 }
{
    u16::from(directive.max_digits(model))
}

/// The most digits that are printed.
#[inline(always)]
pub(crate) fn longest(model: Model, directive: &Directive) -> u16
    ensures value { result ≡ longest model directive.now }
    ensures limit { result ≤ MAX_NUMBER }
{
    precision(directive).max(max_digits(model, directive))
}

/// The length of the sign that the flags ask for.
#[inline(always)]
pub(crate) fn sign_len(directive: &Directive) -> u16
    ensures value { result ≡ sign_len directive.now }
    ensures limit { result ≤ 1 }
{
    Sign::of(directive.flags()).len()
}

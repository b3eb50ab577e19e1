//! Directives: conversion specifications that the standard defines, within the limits.
ghost use Rattle.std.specs.Prelude.{◌≡◌, ◌≤◌, MatchResult};
ghost use Rattle.pf_values.specs.declared.limits.TheConstants.{MAX_NUMBER};
ghost use Rattle.pf_values.specs.meaning.Defined.{
  IsDefined,
  first_broken,
  refused_as,
  undefined_kinds,
};
ghost use Rattle.pf_values.specs.Directives.{specification_of, value_bits, effective_precision};
ghost use Rattle.pf_values.specs.meaning.DataModel.{arg_type};
ghost use Rattle.pf_values.specs.meaning.Normal.{digits_at_most};
ghost use Rattle.pf_values.specs.meaning.Printing.{is_zero_filled};

use crate::bases::by_bits;
use crate::conversions::{Conv, Kind};
use crate::data_model::length_row;
use crate::flags::{Flag, FlagSet};
use crate::lengths::Length;
use crate::limits::MAX_NUMBER;
use crate::models::Model;
use crate::refusals::RefusalKind;
use crate::types::ArgType;
use std::marker;

/// A conversion specification that the standard defines, with numbers within the limits.
#[derive(Clone, Copy, Debug, PartialEq, Eq)]
pub struct Directive {
    flags: FlagSet,
    width: Option<u16>,
    precision: Option<u16>,
    length: Length,
    conv: Conv,
}

impl marker::Model for Directive {
    ghost use Rattle.pf_values.specs.meaning.Specification.{Specification};
    ghost use Rattle.pf_values.specs.meaning.Defined.{IsDefined};

    ghost Value = { Specification };

    ghost view = { λ d. record {
      flags = d.flags;
      width = d.width;
      precision = d.precision;
      length = d.length;
      conv = d.conv;
    } };

    ghost invariant = { λ d. IsDefined (record {
      flags = d.flags;
      width = d.width;
      precision = d.precision;
      length = d.length;
      conv = d.conv;
    }) };

    ghost inverse = { λ s. record {
      flags = s.flags;
      width = s.width;
      precision = s.precision;
      length = s.length;
      conv = s.conv;
    } };
}

impl Directive {
    /// Returns the directive of these parts. `Err` with the kind of smallest number that rejects
    /// them: for a number above the limit, or what C11 7.21.6.1 (paragraphs 4 to 9) and POSIX leave
    /// undefined. A width of 0 means no width.
    pub fn new(
        flags: FlagSet,
        width: Option<u16>,
        precision: Option<u16>,
        length: Length,
        conv: Conv,
    ) -> Result<Directive, RefusalKind>
        ensures { let asked = specification_of flags width precision length conv in
            MatchResult result (λ d. (d ≡ asked) × IsDefined asked)
            (λ kind. refused_as asked ≡ Some kind) }
    {
        let width = width.filter(|w| *w != 0);
        if width.is_some_and(|w| w > MAX_NUMBER) {
            return Err(RefusalKind::WidthTooLarge);
        }
        if precision.is_some_and(|p| p > MAX_NUMBER) {
            return Err(RefusalKind::PrecisionTooLarge);
        }
        if let Some(kind) = first_undefined(flags, precision, length, conv) {
            return Err(kind);
        }
        Ok(Directive {
            flags,
            width,
            precision,
            length,
            conv,
        })
    }

    /// Returns the directive of parts that are known to be defined, so that nothing is left to
    /// reject. A width of 0 means no width.
    #[inline(always)]
    pub fn of_defined(
        flags: FlagSet,
        width: Option<u16>,
        precision: Option<u16>,
        length: Length,
        conv: Conv,
    ) -> Directive
        requires { IsDefined (specification_of flags width precision length conv) }
        ensures { result ≡ specification_of flags width precision length conv }
    {
        Directive {
            flags,
            width: width.filter(|w| *w != 0),
            precision,
            length,
            conv,
        }
    }

    /// Returns the flags.
    pub fn flags(&self) -> FlagSet
        ensures value { result ≡ self.now.flags }
        ensures defined { IsDefined self.now }
    {
        self.flags
    }

    /// Returns the field width, from 1 to the limit, or `None` if none is given.
    pub fn width(&self) -> Option<u16>
        ensures value { result ≡ self.now.width }
        ensures defined { IsDefined self.now }
    {
        self.width
    }

    /// Returns the precision, from 0 to the limit, or `None` if none is given.
    pub fn precision(&self) -> Option<u16>
        ensures value { result ≡ self.now.precision }
        ensures defined { IsDefined self.now }
    {
        self.precision
    }

    /// Returns the length modifier.
    pub fn length(&self) -> Length
        ensures value { result ≡ self.now.length }
        ensures defined { IsDefined self.now }
    {
        self.length
    }

    /// Returns the conversion.
    pub fn conv(&self) -> Conv
        ensures value { result ≡ self.now.conv }
        ensures defined { IsDefined self.now }
    {
        self.conv
    }

    /// Returns whether the flag `0` counts: with `-` or a precision it doesn't (C11 7.21.6.1,
    /// paragraph 6).
    pub fn is_zero_filled(&self) -> bool
        ensures { result ≡ is_zero_filled self.now }
    {
        let flags = self.flags;
        flags.has(Flag::Zero) && !flags.has(Flag::Minus) && self.precision.is_none()
    }

    /// Returns the precision of a number after a sign or prefix of `front` bytes: as it is given,
    /// or 1; if the flag `0` counts, what is left of the width (C11 7.21.6.1, paragraphs 6 and 8).
    pub fn effective_precision(&self, front: u16) -> u16
        ensures value { result ≡ effective_precision self.now front }
        ensures limit { result ≤ MAX_NUMBER }
    {
        let width = self.width.unwrap_or(0);
        let precision = self.precision.unwrap_or(1);
        if self.is_zero_filled() {
            width.saturating_sub(front).max(1)
        } else {
            precision
        }
    }

    /// Returns the type of the argument that it takes in this data model (C11 7.21.6.1, paragraphs
    /// 7 and 8).
    pub fn arg_type(&self, model: Model) -> ArgType
        ensures { result ≡ arg_type model self.now }
    {
        self.conv.arg_type(model, self.length)
    }

    /// Returns the bits of the value that it prints; 0 for `c` and `s`.
    pub fn bits(&self, model: Model) -> u8
        ensures { result ≡ value_bits model self.now }
    {
        if self.conv.kind().is_text() {
            return 0;
        }
        length_row(model, self.length).bits
    }

    /// Returns the most digits that its value has, the sign not counted; 0 for `c` and `s`.
    #[inline(always)]
    pub fn max_digits(&self, model: Model) -> u8
        ensures { result ≡ digits_at_most model self.now }
    {
        let bits = length_row(model, self.length).bits;
        match self.conv.kind() {
            Kind::Signed => by_bits(bits, 3, 5, 10, 19),
            Kind::Unsigned(base, _) => base.max_digits(bits),
            Kind::Char | Kind::String => 0,
        }
    }
}

// The first combination that the standard leaves undefined.
fn first_undefined(
    flags: FlagSet,
    precision: Option<u16>,
    length: Length,
    conv: Conv,
) -> Option<RefusalKind>
    ensures { result
        ≡ first_broken undefined_kinds (specification_of flags None precision length conv) }
{
    let kind = conv.kind();
    if length.is_long() && kind.is_text() {
        return Some(RefusalKind::Wide);
    }
    if flags.has(Flag::Alt) && !kind.has_alternative_form() {
        return Some(RefusalKind::AltUndefined);
    }
    if flags.has(Flag::Zero) && kind.is_text() {
        return Some(RefusalKind::ZeroUndefined);
    }
    if flags.has(Flag::Group) && !kind.is_grouped() {
        return Some(RefusalKind::GroupUndefined);
    }
    if precision.is_some() && kind.is_char() {
        return Some(RefusalKind::PrecisionUndefined);
    }
    if !length.is_absent() && kind.is_text() {
        return Some(RefusalKind::LengthUndefined);
    }
    None
}

//! Which directives are normal.
ghost use Rattle.std.specs.Prelude.{◌≡◌, ◌≤◌, ◌↔◌, IsTrue, false};
ghost use Rattle.pf_values.specs.meaning.Defined.{IsDefined};
ghost use Rattle.pf_values.specs.meaning.Normal.{
  IsNormal,
  IsNormalString,
  IsNormalUnprefixed,
  IsNormalOctal,
  IsNormalFilled,
  IsNormalPrefixed,
  IsNormalSigned,
  HasNormalForm,
  HasSignedForm,
  HasUnsignedForm,
  digits_at_most,
};
ghost use Rattle.pf_reduce.specs.NormalParts.{HasNormalParts};
ghost use Rattle.pf_values.specs.meaning.Conversions.{is_text, kind_of};
ghost use Rattle.pf_values.specs.meaning.Flags.{no_flags};

use crate::numbers::{longest, max_digits, precision, sign_len, width};
use pf_values::{Alternative, Directive, Flag, FlagSet, Kind, Model};

/// Returns whether a directive is normal in this data model. `reduce` leaves a normal directive as
/// it is.
pub fn is_normal(model: Model, directive: &Directive) -> bool
    ensures { IsTrue result ↔ IsNormal model directive.now }
{
    has_normal_parts(model, directive) && has_normal_form(model, directive)
}

fn has_normal_parts(model: Model, directive: &Directive) -> bool
    ensures parts { IsTrue result ↔ HasNormalParts model directive.now }
    ensures defined { IsDefined directive.now }
{
    let flags = directive.flags();
    let conv = directive.conv();
    let length = directive.length();
    if flags.has(Flag::Group)
        || length.representative(model) != length
        || conv.representative() != conv
    {
        return false;
    }
    let kind = conv.kind();
    if (flags.has(Flag::Plus) || flags.has(Flag::Space)) && !matches!(kind, Kind::Signed) {
        return false;
    }
    directive.precision() != Some(1) || matches!(kind, Kind::String)
}

fn has_normal_form(model: Model, directive: &Directive) -> bool
    ensures { IsTrue result ↔ HasNormalForm model (kind_of directive.now.conv) directive.now }
{
    match directive.conv().kind() {
        Kind::Signed => has_signed_form(model, directive),
        Kind::Unsigned(base, _) => has_unsigned_form(model, directive, base.alternative()),
        Kind::Char => is_bare(directive),
        Kind::String => is_normal_string(directive),
    }
}

/// Whether the flags, the field width and the precision are those of a normal `d`.
#[inline(always)]
pub(crate) fn has_signed_form(model: Model, directive: &Directive) -> bool
    ensures { IsTrue result ↔ HasSignedForm model directive.now }
{
    if directive.flags().has(Flag::Zero) {
        return is_normal_filled(directive) && sign_len(directive) == 0;
    }
    is_normal_signed(model, directive)
}

fn has_unsigned_form(model: Model, directive: &Directive, alternative: Alternative) -> bool
    requires { is_text directive.now.conv ≡ false }
    ensures { IsTrue result ↔ HasUnsignedForm model alternative directive.now }
{
    let alt = directive.flags().has(Flag::Alt);
    let zero = directive.flags().has(Flag::Zero);
    match alternative {
        Alternative::Raised if alt => is_normal_octal(model, directive),
        Alternative::Prefixed if alt && zero => is_normal_filled(directive),
        Alternative::Prefixed if alt => is_normal_prefixed(model, directive),
        Alternative::Undefined | Alternative::Raised | Alternative::Prefixed => {
            is_normal_unprefixed(model, directive)
        }
    }
}

#[inline(always)]
fn is_bare(directive: &Directive) -> bool
    ensures { IsTrue result ↔ (
        (directive.now.flags ≡ no_flags) × (directive.now.width ≡ None)
        × (directive.now.precision ≡ None)) }
{
    directive.flags() == FlagSet::empty()
        && directive.width().is_none()
        && directive.precision().is_none()
}

/// Whether they are those of a normal `s`.
#[inline(always)]
pub(crate) fn is_normal_string(directive: &Directive) -> bool
    ensures { IsTrue result ↔ IsNormalString directive.now }
{
    let width = width(directive);
    if directive.flags().has(Flag::Minus) && width <= 1 {
        return false;
    }
    match directive.precision() {
        None => true,
        Some(precision) => 1 <= precision && width <= precision,
    }
}

/// Whether they are those of a normal `u`, or of `o`, `x`, `X` and `b` without `#`.
#[inline(always)]
pub(crate) fn is_normal_unprefixed(model: Model, directive: &Directive) -> bool
    requires { is_text directive.now.conv ≡ false }
    ensures { IsTrue result ↔ IsNormalUnprefixed model directive.now }
{
    let width = width(directive);
    let precision = precision(directive);
    let left = directive.flags().has(Flag::Minus);
    if directive.flags().has(Flag::Zero) {
        return false;
    }
    if width == 0 {
        return !left && has_digits(model, directive, precision);
    }
    if width <= precision || left && precision == 0 && width == 1 {
        return false;
    }
    has_digits(model, directive, width)
}

// Whether the count is not above the most digits. Every number has a digit.
#[inline(always)]
fn has_digits(model: Model, directive: &Directive, count: u16) -> bool
    requires { is_text directive.now.conv ≡ false }
    ensures { IsTrue result ↔ (count ≤ digits_at_most model directive.now) }
{
    count <= 1 || count <= max_digits(model, directive)
}

fn is_normal_octal(model: Model, directive: &Directive) -> bool
    ensures { IsTrue result ↔ IsNormalOctal model directive.now }
{
    if directive.flags().has(Flag::Minus) || directive.flags().has(Flag::Zero) {
        return false;
    }
    let width = width(directive);
    let precision = precision(directive);
    1 <= precision && precision < width && width <= max_digits(model, directive) + 1
}

#[inline(always)]
fn is_normal_filled(directive: &Directive) -> bool
    ensures { IsTrue result ↔ IsNormalFilled directive.now }
{
    !directive.flags().has(Flag::Minus) && directive.precision().is_none() && width(directive) >= 2
}

fn is_normal_prefixed(model: Model, directive: &Directive) -> bool
    ensures { IsTrue result ↔ IsNormalPrefixed model directive.now }
{
    let width = width(directive);
    let precision = precision(directive);
    if width == 0 {
        return !directive.flags().has(Flag::Minus);
    }
    if width <= precision || width > 2 + longest(model, directive) {
        return false;
    }
    !directive.flags().has(Flag::Minus) || precision != 0 || width > 3
}

#[inline(always)]
fn is_normal_signed(model: Model, directive: &Directive) -> bool
    ensures { IsTrue result ↔ IsNormalSigned model directive.now }
{
    let plus = directive.flags().has(Flag::Plus);
    let space = directive.flags().has(Flag::Space);
    let left = directive.flags().has(Flag::Minus);
    let width = width(directive);
    let precision = precision(directive);
    let sign = sign_len(directive);
    if plus && space {
        return false;
    }
    if width == 0 {
        return !left;
    }
    if width <= sign + precision {
        return false;
    }
    let full = 1 + longest(model, directive);
    if width > full {
        return false;
    }
    if left {
        return plus || precision != 0 || width > sign + 1;
    }
    width != full || !(space || sign == 0 && precision >= max_digits(model, directive))
}

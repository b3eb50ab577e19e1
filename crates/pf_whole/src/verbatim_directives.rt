//! Directives outside the profile that are their own normal spelling in each data model.
ghost use Rattle.std.specs.Prelude.{◌≡◌, ◌+◌, ◌<◌, ◌≤◌, Some, drop, length, take, IfSome, IsTrue};
ghost use Rattle.pf_values.specs.declared.models.Model.{Model as ModelOf};
ghost use Rattle.pf_values.specs.meaning.Spelling.{flags_spelled};
ghost use Rattle.pf_text.specs.Offsets.{HasBytes};
ghost use Rattle.pf_text.specs.Walks.{HasPercent};
ghost use Rattle.pf_posix.specs.OpaqueParts.{amount_of, bare, parts_of_opaque};
ghost use Rattle.pf_whole.specs.Verbatim.{HasFewFlags, IsOwnNormalForm, IsPlainAt, CanBePrecision, IsOwnSpelling, CanBeWidth};
ghost use Rattle.pf_whole.specs.meaning.NormalSpellings.{integer_modifier, kept_conversion, kept_flags, kept_modifier, normal_precision, whole_precision_spelled, whole_width_spelled};

use crate::directives::{is_general, is_meant};
use pf_posix::{
    OpaqueAmount, OpaqueDirective, WholeConv, WholeLength, conversion_at, is_opaque, modifier_at,
    undefined_as,
};
use pf_text::number_at;
use pf_values::{Conv, Flag, FlagSet, Length};

/// Returns the length of the directive that begins with the `%` at an offset, if it is a conversion outside the
/// profile and nothing else. Otherwise returns 0.
#[inline(always)]
pub(crate) fn bare_len(text: &[u8], at: usize) -> usize
    requires { HasPercent text.now at }
    ensures within { at + result ≤ length text.now }
    ensures verbatim { 0 < result → IsOwnSpelling (take result (drop at text.now)) }
{
    match conversion_at(text, at + 1) {
        Ok(conversion) => {
            if is_verbatim_alone(conversion) {
                return 2;
            }
            0
        }
        Err(_) => 0,
    }
}

// Whether the profile lacks a conversion alone, and it is normal in each data model.
#[inline(always)]
fn is_verbatim_alone(conversion: WholeConv) -> bool
    ensures { IsTrue result → IsOwnNormalForm (parts_of_opaque (bare conversion)) }
{
    match conversion {
        WholeConv::Float(_) => true,
        WholeConv::Pointer => true,
        WholeConv::Count => true,
        _ => false,
    }
}

/// Returns how many bytes the directive has that begins with the `%` at an offset, if the profile lacks it and
/// they are its normal spelling in each data model, with no flag but `-`. If not, 0.
#[inline(always)]
pub(crate) fn verbatim_len(text: &[u8], at: usize) -> usize
    requires { HasPercent text.now at }
    ensures within { at + result ≤ length text.now }
    ensures verbatim { 0 < result → IsOwnSpelling (take result (drop at text.now)) }
{
    match plain_at(text, at) {
        Some((directive, stop)) => {
            if is_verbatim(directive) {
                return stop - at;
            }
            0
        }
        None => 0,
    }
}

// The directive that begins with the `%` at an offset, if its parts are spelled in the one way and it has no flag
// but `-`, and where it ends.
#[inline(always)]
fn plain_at(text: &[u8], at: usize) -> Option<(OpaqueDirective, usize)>
    requires { HasPercent text.now at }
    ensures { IfSome result (λ found. IsPlainAt text.now at found.0 found.1) }
{
    let (flags, flags_stop) = minus_at(text, at + 1);
    let (width, width_stop) = width_at(text, flags_stop);
    let (precision, precision_stop) = precision_at(text, width_stop)?;
    let (modifier, modifier_stop) = modifier_at(text, precision_stop);
    let conversion = conversion_at(text, modifier_stop).ok()?;
    let directive = OpaqueDirective {
        flags,
        width,
        precision,
        modifier,
        conversion,
    };
    Some((directive, modifier_stop + 1))
}

// The flag `-`, if it is at an offset, and where what follows begins.
#[inline(always)]
fn minus_at(text: &[u8], start: usize) -> (FlagSet, usize)
    requires { start ≤ length text.now }
    ensures bytes { HasBytes text.now start result.1 (flags_spelled result.0) }
    ensures few { HasFewFlags result.0 }
{
    if start >= text.len() {
        return (FlagSet::empty(), start);
    }
    if text[start] != b'-' {
        return (FlagSet::empty(), start);
    }
    (FlagSet::empty().with(Flag::Minus), start + 1)
}

// The width at an offset, and where it ends.
#[inline(always)]
fn width_at(text: &[u8], start: usize) -> (Option<OpaqueAmount>, usize)
    requires { start ≤ length text.now }
    ensures bytes { HasBytes text.now start result.1 (whole_width_spelled (amount_of result.0)) }
    ensures width { CanBeWidth (amount_of result.0) }
{
    if start >= text.len() {
        return (None, start);
    }
    if text[start] == b'*' {
        return (Some(OpaqueAmount::Star), start + 1);
    }
    match number_at(text, start) {
        (Some(number), stop) => (Some(OpaqueAmount::Number(number)), stop),
        (None, _) => (None, start),
    }
}

// The precision at an offset, and where it ends. `None` if it has a number that is spelled in another way.
#[inline(always)]
fn precision_at(text: &[u8], start: usize) -> Option<(Option<OpaqueAmount>, usize)>
    requires { start ≤ length text.now }
    ensures { IfSome result (λ read. HasBytes text.now start read.1 (whole_precision_spelled (amount_of read.0))
        × CanBePrecision (amount_of read.0)) }
{
    if start >= text.len() {
        return Some((None, start));
    }
    if text[start] != b'.' {
        return Some((None, start));
    }
    match amount_at(text, start + 1) {
        Some((amount, stop)) => Some((Some(amount), stop)),
        None => None,
    }
}

// The precision after its point, and where it ends. `None` if it is spelled in another way.
#[inline(always)]
fn amount_at(text: &[u8], start: usize) -> Option<(OpaqueAmount, usize)>
    requires { start ≤ length text.now }
    ensures { IfSome result (λ read. HasBytes text.now start read.1 (whole_width_spelled (amount_of (Some read.0)))
        × CanBePrecision (amount_of (Some read.0))) }
{
    if start >= text.len() {
        return None;
    }
    match text[start] {
        b'*' => Some((OpaqueAmount::Star, start + 1)),
        b'0' => Some((OpaqueAmount::Number(0), start + 1)),
        _ => match number_at(text, start) {
            (Some(number), stop) => Some((OpaqueAmount::Number(number), stop)),
            (None, _) => None,
        },
    }
}

// Whether the profile lacks a directive, the standards define it, and its parts are normal in each data model.
#[inline(always)]
fn is_verbatim(directive: OpaqueDirective) -> bool
    requires { HasFewFlags directive.flags }
    ensures { IsTrue result → IsOwnNormalForm (parts_of_opaque directive) }
{
    if !is_opaque(directive) {
        return false;
    }
    if undefined_as(&directive).is_some() {
        return false;
    }
    if !has_normal_flags(directive) {
        return false;
    }
    if !has_normal_precision(directive) {
        return false;
    }
    has_normal_letters(directive)
}

// `-` justifies within a field, so it needs a width.
#[inline(always)]
fn has_normal_flags(directive: OpaqueDirective) -> bool
    requires { HasFewFlags directive.flags }
    ensures { IsTrue result → kept_flags (parts_of_opaque directive) ≡ directive.flags }
{
    if directive.flags.has(Flag::Minus) {
        return directive.width.is_some();
    }
    true
}

#[inline(always)]
fn has_normal_precision(directive: OpaqueDirective) -> bool
    ensures { IsTrue result → normal_precision directive.conversion (amount_of directive.precision) ≡ amount_of directive.precision }
{
    match directive.precision {
        Some(OpaqueAmount::Number(n)) => {
            if is_meant(directive.conversion, n) {
                return false;
            }
            n > 0 || !is_general(directive.conversion)
        }
        _ => true,
    }
}

#[inline(always)]
fn has_normal_letters(directive: OpaqueDirective) -> bool
    ensures conversion { IsTrue result → kept_conversion directive.conversion ≡ directive.conversion }
    ensures modifier { IsTrue result → (model : ModelOf)
        → kept_modifier model directive.conversion directive.modifier ≡ directive.modifier }
{
    match directive.conversion {
        WholeConv::Profile(Conv::C | Conv::S) | WholeConv::Pointer => true,
        WholeConv::Profile(Conv::I) | WholeConv::UpperC | WholeConv::UpperS => false,
        WholeConv::Profile(_) | WholeConv::Count => is_kept_modifier(directive.modifier),
        WholeConv::Float(_) => matches!(
            directive.modifier,
            WholeLength::Integer(Length::None) | WholeLength::LongDouble
        ),
    }
}

// Whether an integer keeps the modifier in each data model.
#[inline(always)]
fn is_kept_modifier(modifier: WholeLength) -> bool
    ensures { IsTrue result → (model : ModelOf) → integer_modifier model modifier ≡ modifier }
{
    match modifier {
        WholeLength::Integer(Length::J | Length::Z | Length::T) => false,
        _ => true,
    }
}

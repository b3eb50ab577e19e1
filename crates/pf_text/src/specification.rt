//! The parts of a conversion specification, each read at its offset, and the directive that they are.
ghost use Rattle.std.specs.Prelude.{◌≡◌, ◌≢◌, ◌+◌, ◌<◌, ◌≤◌, ◌&&◌, ◌||◌, ◌⊎◌, List, [], ◌∷◌, ◌++◌, drop, false, get_or, length, map, not, ℕ, None, Some, IfSome, IsFalse, MatchBool, MatchOption};
ghost use Rattle.pf_values.specs.Directives.{specification_of};
ghost use Rattle.pf_values.specs.declared.flags.Flag.{Flag};
ghost use Rattle.pf_values.specs.declared.flags.Flag.TheVariants.{Alt, Group, Zero};
ghost use Rattle.pf_values.specs.declared.limits.TheConstants.{MAX_NUMBER};
ghost use Rattle.pf_values.specs.meaning.Conversions.{conv_letter};
ghost use Rattle.pf_values.specs.meaning.Defined.{first_broken, is_above_limit, undefined_kinds};
ghost use Rattle.pf_values.specs.meaning.Flags.{flag_byte, flag_set, has};
ghost use Rattle.pf_values.specs.meaning.Lengths.{is_absent, length_letters};
ghost use Rattle.pf_values.specs.meaning.Spelling.{SpellsPrecision, flags_spelled, precision_spelled, width_spelled};
ghost use Rattle.pf_values.specs.meaning.Text.{Text};
ghost use Rattle.pf_text.specs.FoundDirectives.{ArePartsAt, BeginsNoDirective, EndsParts, EndsDirective, IsFoundAt, IsSpelledAt};
ghost use Rattle.pf_text.specs.Letters.{conv_of, modifier_of};
ghost use Rattle.pf_text.specs.Offsets.{ContinuesNumber, EndsFlags, EndsModifier, EndsNumber, EndsPrecision, EndsWidth, HasBytes};
ghost use Rattle.pf_text.specs.Walks.{HasPercent};

use crate::letters::{conv_of, flag_of, modifier_of};
use pf_values::limits::MAX_NUMBER;
use pf_values::{Conv, Directive, Flag, FlagSet, Length};

/// A directive at an offset of a text.
#[derive(Clone, Copy, Debug)]
pub struct FoundDirective {
    /// The directive.
    pub directive: Directive,
    /// The offset of its length modifier, or of the conversion without one.
    pub modifier_at: usize,
    /// Where it ends.
    pub stop: usize,
}

/// Returns the directive at an offset of a text, or `None` if no directive begins there.
#[inline(always)]
pub fn directive_at(text: &[u8], start: usize) -> Option<FoundDirective>
    ensures { MatchOption result (BeginsNoDirective (drop start text.now)) (IsFoundAt text.now start) }
{
    if !has_percent(text, start) {
        return None;
    }
    directive_at_percent(text, start)
}

/// Returns the directive at an offset of a text, if it is spelled as `spell` spells it. `None` says nothing of
/// the text, and comes for each flag but `-` and `0`: call `directive_at` then.
#[inline(always)]
pub fn spelled_at(text: &[u8], start: usize) -> Option<FoundDirective>
    ensures { IfSome result (IsSpelledAt text.now start) }
{
    if !has_percent(text, start) {
        return None;
    }
    let (flags, at) = padding_flag_at(text, start + 1);
    let (width, at) = number_at(text, at);
    let (precision, at) = spelled_precision_at(text, at)?;
    ending_at(text, flags, width, precision, at)
}

// Whether a `%` is at an offset, and isn't the last byte.
#[inline(always)]
fn has_percent(text: &[u8], at: usize) -> bool
    ensures { MatchBool result (HasPercent text.now at) (BeginsNoDirective (drop at text.now)) }
{
    if at >= text.len() {
        return false;
    }
    if at + 1 >= text.len() {
        return false;
    }
    text[at] == b'%'
}

/// The directive at the `%` at an offset. Most have one flag at most: then what the others do falls away.
#[inline(always)]
pub(crate) fn directive_at_percent(text: &[u8], start: usize) -> Option<FoundDirective>
    requires { HasPercent text.now start }
    ensures { MatchOption result (BeginsNoDirective (drop start text.now)) (IsFoundAt text.now start) }
{
    let (flags, at) = common_flag_at(text, start + 1);
    match directive_with(text, flags, at) {
        Some(found) => Some(found),
        None => directive_with_more(text, start, at),
    }
}

// The directive at the `%` at an offset, if there is one that has flags beyond another offset.
#[inline(always)]
fn directive_with_more(text: &[u8], start: usize, at: usize) -> Option<FoundDirective>
    requires { HasPercent text.now start }
    ensures { MatchOption result (EndsFlags text.now at ⊎ BeginsNoDirective (drop start text.now)) (IsFoundAt text.now start) }
{
    if !has_flag(text, at) {
        return None;
    }
    any_directive_at(text, start)
}

// The flag `-`, `0` or `#` at an offset, if there is one, and where it ends.
#[inline(always)]
fn common_flag_at(text: &[u8], start: usize) -> (FlagSet, usize)
    requires { start < length text.now }
    ensures { (flags : List Flag) × (result.0 ≡ flag_set flags)
        × HasBytes text.now start result.1 (map flag_byte flags) }
{
    if text[start] == b'#' {
        return (FlagSet::empty().with(Flag::Alt), start + 1);
    }
    padding_flag_at(text, start)
}

// The flag `-` or `0` at an offset, if there is one, and where it ends.
#[inline(always)]
fn padding_flag_at(text: &[u8], start: usize) -> (FlagSet, usize)
    requires { start < length text.now }
    ensures { HasBytes text.now start result.1 (flags_spelled result.0) }
{
    match text[start] {
        b'-' => (FlagSet::empty().with(Flag::Minus), start + 1),
        b'0' => (FlagSet::empty().with(Flag::Zero), start + 1),
        _ => (FlagSet::empty(), start),
    }
}

// Whether a flag is at an offset.
#[inline(always)]
fn has_flag(text: &[u8], at: usize) -> bool
    ensures { IsFalse result → EndsFlags text.now at }
{
    if at >= text.len() {
        return false;
    }
    flag_of(text[at]).is_some()
}

// The directive at the `%` at an offset, with any flags.
#[inline(never)]
fn any_directive_at(text: &[u8], start: usize) -> Option<FoundDirective>
    requires { HasPercent text.now start }
    ensures { MatchOption result (BeginsNoDirective (drop start text.now)) (IsFoundAt text.now start) }
{
    let (flags, at) = flags_at(text, start + 1);
    directive_with(text, flags, at)
}

// The directive with these flags, whose rest is at an offset.
#[inline(always)]
fn directive_with(text: &[u8], flags: FlagSet, at: usize) -> Option<FoundDirective>
    requires { at ≤ length text.now }
    ensures { (start : ℕ) → ArePartsAt text.now start flags None None at
        → MatchOption result (EndsFlags text.now at → BeginsNoDirective (drop start text.now))
        (IsFoundAt text.now start) }
{
    let (width, at) = number_at(text, at);
    let (precision, at) = precision_at(text, at);
    ending_at(text, flags, width, precision, at)
}

// The directive with these parts, whose length modifier and conversion are at an offset.
#[inline(always)]
fn ending_at(
    text: &[u8],
    flags: FlagSet,
    width: Option<u16>,
    precision: Option<u16>,
    at: usize,
) -> Option<FoundDirective>
    requires within { at ≤ length text.now }
    requires some { width ≢ Some 0 }
    requires few { is_above_limit width ≡ false }
    requires small { is_above_limit precision ≡ false }
    ensures { MatchOption result
        ((start : ℕ) → ArePartsAt text.now start flags width precision at → EndsParts text.now at width precision
        → BeginsNoDirective (drop start text.now))
        (EndsDirective text.now at flags width precision) }
{
    let (length, stop) = modifier_at(text, at);
    let conv = conv_at(text, stop)?;
    if !is_defined(flags, precision, length, conv) {
        return None;
    }
    Some(FoundDirective {
        directive: Directive::of_defined(flags, width, precision, length, conv),
        modifier_at: at,
        stop: stop + 1,
    })
}

/// Whether the standard and POSIX define these parts together. `Directive::new` also finds out why
/// they don't, which takes longer.
#[inline(always)]
pub(crate) fn is_defined(flags: FlagSet, precision: Option<u16>, length: Length, conv: Conv) -> bool
    ensures { MatchBool result
        (first_broken undefined_kinds (specification_of flags None precision length conv) ≡ None)
        (first_broken undefined_kinds (specification_of flags None precision length conv) ≢ None) }
{
    let kind = conv.kind();
    if kind.is_text() {
        return suits_text(flags, length) && !(kind.is_char() && precision.is_some());
    }
    if flags.has(Flag::Alt) && !kind.has_alternative_form() {
        return false;
    }
    !flags.has(Flag::Group) || kind.is_grouped()
}

// Whether flags and a length modifier are defined for a byte or a string: no `#`, no `0`, no `'` and
// no modifier.
#[inline(always)]
fn suits_text(flags: FlagSet, length: Length) -> bool
    ensures { result ≡ (is_absent length && not (has flags Alt || has flags Zero || has flags Group)) }
{
    match length {
        Length::None => !(flags.has(Flag::Alt) | flags.has(Flag::Zero) | flags.has(Flag::Group)),
        _ => false,
    }
}

/// Returns the flags from an offset on, and where they end (C11 7.21.6.1, paragraph 6).
#[inline(always)]
pub fn flags_at(text: &[u8], start: usize) -> (FlagSet, usize)
    requires { start ≤ length text.now }
    ensures flags { (flags : List Flag) × (result.0 ≡ flag_set flags)
        × HasBytes text.now start result.1 (map flag_byte flags) }
    ensures ended { EndsFlags text.now result.1 }
{
    let mut flags = FlagSet::empty();
    let mut at = start;
    while at < text.len() {
        match flag_of(text[at]) {
            Some(flag) => flags = flags.with(flag),
            None => return (flags, at),
        }
        at += 1;
    }
    (flags, at)
}

/// Returns the number at an offset that doesn't begin with 0, as that of a field width, and where it ends,
/// which is before a digit with which it would pass the limit (C11 7.21.6.1, paragraph 4).
#[inline(always)]
pub fn number_at(text: &[u8], start: usize) -> (Option<u16>, usize)
    requires { start ≤ length text.now }
    ensures bytes { HasBytes text.now start result.1 (width_spelled result.0) }
    ensures some { result.0 ≢ Some 0 }
    ensures small { is_above_limit result.0 ≡ false }
    ensures ended { EndsWidth result.0 text.now result.1 }
{
    if start >= text.len() {
        return (None, start);
    }
    match text[start] {
        b'1'..=b'9' => {
            let (number, stop) = digits_at(text, start + 1, u16::from(text[start] - b'0'));
            (Some(number), stop)
        }
        _ => (None, start),
    }
}

// The precision at an offset, and where it ends (C11 7.21.6.1, paragraph 4).
#[inline(always)]
fn precision_at(text: &[u8], start: usize) -> (Option<u16>, usize)
    requires { start ≤ length text.now }
    ensures bytes { (bytes : Text) × SpellsPrecision bytes result.0
        × HasBytes text.now start result.1 bytes }
    ensures small { is_above_limit result.0 ≡ false }
    ensures ended { EndsPrecision result.0 text.now result.1 }
{
    if start >= text.len() {
        return (None, start);
    }
    if text[start] != b'.' {
        return (None, start);
    }
    let (number, stop) = digits_at(text, start + 1, 0);
    (Some(number), stop)
}

// The precision at an offset, and where it ends. None if it has a zero in front, or no digits.
#[inline(always)]
fn spelled_precision_at(text: &[u8], start: usize) -> Option<(Option<u16>, usize)>
    requires { start ≤ length text.now }
    ensures small { IfSome result (λ read. is_above_limit read.0 ≡ false) }
    ensures bytes { IfSome result (λ read. HasBytes text.now start read.1 (precision_spelled read.0)) }
{
    if start >= text.len() {
        return None;
    }
    if text[start] != b'.' {
        return Some((None, start));
    }
    match number_at(text, start + 1) {
        (Some(precision), stop) => Some((Some(precision), stop)),
        (None, _) => None,
    }
}

/// Returns the number that begins with the digits of `first`, and goes on with those from an offset on; and
/// where they end, which is before a digit with which it would pass the limit.
#[inline(always)]
pub fn digits_at(text: &[u8], start: usize, first: u16) -> (u16, usize)
    requires within { start ≤ length text.now }
    requires small { first ≤ MAX_NUMBER }
    ensures small { result.0 ≤ MAX_NUMBER }
    ensures digits { (bytes : Text) × ContinuesNumber first bytes result.0
        × HasBytes text.now start result.1 bytes }
    ensures ended { EndsNumber result.0 text.now result.1 }
{
    let mut number = first;
    let mut at = start;
    while at < text.len() {
        let byte = text[at];
        if !byte.is_ascii_digit() {
            return (number, at);
        }
        let longer = 10 * number + u16::from(byte - b'0');
        if longer > MAX_NUMBER {
            return (number, at);
        }
        number = longer;
        at += 1;
    }
    (number, at)
}

/// Returns the length modifier of integers at an offset, and where it ends (C11 7.21.6.1, paragraph 7).
#[inline(always)]
pub fn modifier_at(text: &[u8], start: usize) -> (Length, usize)
    requires { start ≤ length text.now }
    ensures letters { HasBytes text.now start result.1 (length_letters result.0) }
    ensures ended { EndsModifier result.0 text.now result.1 }
{
    if start >= text.len() {
        return (Length::None, start);
    }
    match modifier_of(text[start]) {
        Some(first) => modifier_with(text, start + 1, first),
        None => (Length::None, start),
    }
}

// The modifier that begins with this one of one letter, and where it ends.
#[inline(always)]
fn modifier_with(text: &[u8], start: usize, first: Length) -> (Length, usize)
    requires { start ≤ length text.now }
    ensures letters { (bytes : Text) × (length_letters result.0 ≡ length_letters first ++ bytes)
        × HasBytes text.now start result.1 bytes }
    ensures ended { (letter : ℕ) → modifier_of letter ≡ Some first → EndsModifier result.0 text.now result.1 }
{
    if start >= text.len() {
        return (first, start);
    }
    match (first, text[start]) {
        (Length::H, b'h') => (Length::Hh, start + 1),
        (Length::L, b'l') => (Length::Ll, start + 1),
        _ => (first, start),
    }
}

/// The conversion at an offset (C11 7.21.6.1, paragraph 8).
#[inline(always)]
pub(crate) fn conv_at(text: &[u8], at: usize) -> Option<Conv>
    requires { at ≤ length text.now }
    ensures { MatchOption result (at < length text.now → conv_of (get_or text.now at 0) ≡ None)
        (λ conv. HasBytes text.now at (at + 1) (conv_letter conv ∷ [])) }
{
    if at >= text.len() {
        return None;
    }
    conv_of(text[at])
}

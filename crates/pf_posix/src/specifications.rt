//! A conversion specification of the whole language, read part by part (C11 7.21.6.1, paragraph 4; POSIX
//! fprintf on numbered arguments), up to its end or to where it can't go on.
ghost use Rattle.std.specs.Prelude.{◌≡◌, ◌≢◌, ◌+◌, ◌<◌, ◌≤◌, ◌==◌, ◌++◌, ◌∷◌, [], ℕ, IfErr, IfOk, IsTrue, MatchResult, Some, None, false, get_or, is_some, length};
ghost use Rattle.pf_values.specs.declared.refusals.RefusalKind.TheVariants.{Unexpected};
ghost use Rattle.pf_values.specs.meaning.Text.{Text, percent, point};
ghost use Rattle.pf_text.specs.Offsets.{HasBytes};
ghost use Rattle.pf_text.specs.States.{is_digit};
ghost use Rattle.pf_posix.specs.Items.{errno_letter};
ghost use Rattle.pf_posix.specs.Letters.{conversion_of};
ghost use Rattle.pf_posix.specs.OpaqueParts.{amount_at};
ghost use Rattle.pf_posix.specs.Specifications.{conversion_letter, modifier_letters};
ghost use Rattle.pf_posix.specs.Spelling.{SpellsPosition, SpellsWholePrecision, SpellsWholeWidth};
ghost use Rattle.pf_posix.specs.PartsInText.{IsFirstWidth, ModifierEnds, NumbersStar, PrecisionEnds, WidthEnds, second_modifier};
ghost use Rattle.pf_posix.specs.Halts.{FollowsBy, HaltsAtPoint, HaltsAtPosition, HaltsAtPrecision, HaltsAtStar, HaltsAtWidth, IsDefinedAt, IsReadAt, IsRefusedIn, IsStrayAt, IsUnreadIn, is_of_combination};

use crate::conversions::{WholeConv, WholeLength};
use crate::letters::{conversion_of, length_modifier_of};
use crate::opaque_directives::{OpaqueAmount, OpaqueDirective};
use crate::undefined_combinations::undefined_as;
use pf_text::{Refusal, digits_at, flags_at, number_at};
use pf_values::{Length, RefusalKind};

/// Whether the specifications of a format are numbered.
#[derive(Clone, Copy, Debug, PartialEq, Eq)]
pub(crate) enum Numbering {
    /// There was no specification yet.
    Undecided,
    /// They aren't.
    Unnumbered,
    /// They are.
    Numbered,
}

/// The arguments of a specification's `*`s, if they have numbers.
#[derive(Clone, Copy, Debug)]
pub(crate) struct Stars {
    /// The number of the width's argument.
    pub(crate) width: Option<u16>,
    /// The offset after the width.
    pub(crate) width_stop: usize,
    /// The number of the precision's argument.
    pub(crate) precision: Option<u16>,
    /// The offset after the precision.
    pub(crate) precision_stop: usize,
}

/// A conversion specification.
#[derive(Clone, Copy, Debug)]
pub(crate) struct Specification {
    /// The number of the argument that it converts.
    pub(crate) position: Option<u16>,
    /// The offset of its flags.
    pub(crate) flags_start: usize,
    /// The offset after them.
    pub(crate) flags_stop: usize,
    /// Its parts.
    pub(crate) parts: OpaqueDirective,
    /// The arguments of its `*`s.
    pub(crate) stars: Stars,
}

/// The refusal of a specification, and what was read before it.
#[derive(Clone, Copy, Debug)]
pub(crate) struct Refused {
    /// The refusal.
    pub(crate) refusal: Refusal,
    /// The arguments of the `*`s before it.
    pub(crate) stars: Stars,
}

/// Reads the specification at a `%`, after others of a numbering, if it is defined (C11 7.21.6.1, paragraphs 4 to
/// 9). Returns it and where it ends.
#[inline(always)]
pub(crate) fn defined_at(
    text: &[u8],
    start: usize,
    numbering: Numbering,
) -> Result<(Specification, usize), Refused>
    requires start { start < length text.now }
    requires percent { get_or text.now start 0 ≡ percent }
    requires other { get_or text.now (start + 1) 0 ≢ percent }
    requires errno { get_or text.now (start + 1) 0 ≢ errno_letter }
    ensures { MatchResult result (IsDefinedAt text.now start numbering) (IsRefusedIn text.now start numbering) }
{
    match specification_at(text, start, numbering) {
        Ok((read, stop)) => match undefined_as(&read.parts) {
            Some(kind) => Err(read.stars.refused(refusal(kind, stop - 1))),
            None => Ok((read, stop)),
        },
        Err(refused) => Err(refused),
    }
}

/// Reads the specification at a `%`, after others of a numbering. Returns it and where it ends.
#[inline(always)]
pub(crate) fn specification_at(
    text: &[u8],
    start: usize,
    numbering: Numbering,
) -> Result<(Specification, usize), Refused>
    requires start { start < length text.now }
    requires percent { get_or text.now start 0 ≡ percent }
    requires other { get_or text.now (start + 1) 0 ≢ percent }
    requires errno { get_or text.now (start + 1) 0 ≢ errno_letter }
    ensures { MatchResult result (IsReadAt text.now start numbering) (IsUnreadIn text.now start numbering) }
{
    let none = Stars::none(start);
    let (position, at) = match position_at(text, start + 1, numbering) {
        Ok(read) => read,
        Err(refusal) => return Err(none.refused(refusal)),
    };
    let flags_start = at;
    let (flags, at) = flags_at(text, at);
    let flags_stop = at;
    let (width, width_number, width_stop) = match width_at(text, at, position) {
        Ok(read) => read,
        Err(refusal) => return Err(none.refused(refusal)),
    };
    let of_width = none.with_width(width_number, width_stop);
    let (precision, precision_number, stop) = match precision_at(text, width_stop, position) {
        Ok(read) => read,
        Err(refusal) => return Err(of_width.refused(refusal)),
    };
    let stars = of_width.with_precision(precision_number, stop);
    let (modifier, at) = modifier_at(text, stop);
    let conversion = match conversion_at(text, at) {
        Ok(conversion) => conversion,
        Err(refusal) => return Err(stars.refused(refusal)),
    };
    let parts = OpaqueDirective {
        flags,
        width,
        precision,
        modifier,
        conversion,
    };
    let read = Specification {
        position,
        flags_start,
        flags_stop,
        parts,
        stars,
    };
    Ok((read, at + 1))
}

impl Stars {
    // Before any `*`.
    #[inline(always)]
    fn none(start: usize) -> Stars
        ensures { result ≡ record { width = None; width_stop = start; precision = None; precision_stop = start } }
    {
        Stars {
            width: None,
            width_stop: start,
            precision: None,
            precision_stop: start,
        }
    }

    #[inline(always)]
    fn with_width(self, number: Option<u16>, stop: usize) -> Stars
        ensures { result ≡ record self { width = number; width_stop = stop } }
    {
        Stars {
            width: number,
            width_stop: stop,
            precision: self.precision,
            precision_stop: self.precision_stop,
        }
    }

    #[inline(always)]
    fn with_precision(self, number: Option<u16>, stop: usize) -> Stars
        ensures { result ≡ record self { precision = number; precision_stop = stop } }
    {
        Stars {
            width: self.width,
            width_stop: self.width_stop,
            precision: number,
            precision_stop: stop,
        }
    }

    #[inline(always)]
    fn refused(self, refusal: Refusal) -> Refused
        ensures { result ≡ record { refusal = refusal; stars = self } }
    {
        Refused {
            refusal,
            stars: self,
        }
    }
}

/// The refusal at an offset.
pub(crate) fn refusal(kind: RefusalKind, at: usize) -> Refusal
    ensures { result ≡ record { kind = kind; at = at } }
{
    Refusal {
        kind,
        at: at as u64,
    }
}

// The refusal at an offset whose byte isn't allowed for this reason: the text may have ended there, and a NUL
// and a `%` have kinds of their own.
fn stray_at(text: &[u8], at: usize, kind: RefusalKind) -> Refusal
    ensures { IsStrayAt text.now at kind result }
{
    match text.get(at) {
        None => refusal(RefusalKind::Truncated, at),
        Some(0) => refusal(RefusalKind::NulByte, at),
        Some(b'%') => refusal(RefusalKind::BadPercent, at),
        Some(_) => refusal(kind, at),
    }
}

// The number of the argument after a `%`, with its `$`, and where they end (POSIX fprintf on `%n$`). Digits
// without a `$` are left to the width.
#[inline(always)]
fn position_at(
    text: &[u8],
    start: usize,
    numbering: Numbering,
) -> Result<(Option<u16>, usize), Refusal>
    requires within { start ≤ length text.now }
    requires other { get_or text.now start 0 ≢ percent }
    requires errno { get_or text.now start 0 ≢ errno_letter }
    ensures bytes { IfOk result (λ read. (bytes : Text) × SpellsPosition bytes read.0
        × HasBytes text.now start read.1 bytes) }
    ensures follows { IfOk result (λ read. FollowsBy numbering read.0) }
    ensures first { IfOk result (λ read. read.0 ≡ None → IsFirstWidth text.now start) }
    ensures halt { IfErr result (HaltsAtPosition text.now start numbering) }
    ensures early { IfErr result (λ refusal. is_of_combination refusal.kind ≡ false) }
{
    let (number, stop) = number_at(text, start);
    let Some(number) = number else {
        return match numbering {
            Numbering::Numbered => Err(stray_at(text, stop, RefusalKind::Mixed)),
            _ => Ok((None, start)),
        };
    };
    if has_digit(text, stop) {
        return Err(refusal(RefusalKind::WidthTooLarge, stop));
    }
    if has_byte(text, stop, b'$') {
        return match numbering {
            Numbering::Unnumbered => Err(refusal(RefusalKind::Mixed, stop)),
            _ => Ok((Some(number), stop + 1)),
        };
    }
    match numbering {
        Numbering::Numbered => Err(stray_at(text, stop, RefusalKind::Mixed)),
        _ => Ok((None, start)),
    }
}

// The number of the argument of a `*` that ends at an offset, and where it ends. It has one if and only if
// the specification has (POSIX fprintf on `*m$`).
#[inline(never)]
fn star_number_at(
    text: &[u8],
    start: usize,
    position: Option<u16>,
    too_large: RefusalKind,
) -> Result<(Option<u16>, usize), Refusal>
    requires within { start ≤ length text.now }
    ensures bytes { IfOk result (λ read. (bytes : Text) × SpellsPosition bytes read.0
        × (is_some read.0 ≡ is_some position) × HasBytes text.now start read.1 bytes) }
    ensures ended { IfOk result (λ read. position ≡ None → is_digit (get_or text.now read.1 0) ≡ false) }
    ensures halt { IfErr result (HaltsAtStar text.now start position too_large) }
    ensures early { is_of_combination too_large ≡ false → IfErr result
        (λ refusal. is_of_combination refusal.kind ≡ false) }
{
    if position.is_none() {
        if has_digit(text, start) {
            return Err(refusal(RefusalKind::Mixed, start));
        }
        return Ok((None, start));
    }
    let (number, stop) = number_at(text, start);
    let Some(number) = number else {
        return Err(stray_at(text, stop, RefusalKind::Mixed));
    };
    if has_digit(text, stop) {
        return Err(refusal(too_large, stop));
    }
    if !has_byte(text, stop, b'$') {
        return Err(stray_at(text, stop, RefusalKind::Mixed));
    }
    Ok((Some(number), stop + 1))
}

// The field width at an offset, the number of its argument, and where it ends (C11 7.21.6.1, paragraphs 4
// and 5).
#[inline(always)]
fn width_at(
    text: &[u8],
    start: usize,
    position: Option<u16>,
) -> Result<(Option<OpaqueAmount>, Option<u16>, usize), Refusal>
    requires within { start ≤ length text.now }
    ensures bytes { IfOk result (λ read. (bytes : Text) × SpellsWholeWidth bytes position (amount_at read.0 read.1)
        × HasBytes text.now start read.2 bytes) }
    ensures number { IfOk result (λ read. NumbersStar read.0 read.1) }
    ensures ended { IfOk result (λ read. WidthEnds text.now read.2 position read.0) }
    ensures halt { IfErr result (HaltsAtWidth text.now start position) }
    ensures early { IfErr result (λ refusal. is_of_combination refusal.kind ≡ false) }
{
    if has_byte(text, start, b'*') {
        return match star_number_at(text, start + 1, position, RefusalKind::WidthTooLarge) {
            Ok((number, stop)) => Ok((Some(OpaqueAmount::Star), number, stop)),
            Err(refusal) => Err(refusal),
        };
    }
    let (number, stop) = number_at(text, start);
    let Some(number) = number else {
        return Ok((None, None, start));
    };
    if has_digit(text, stop) {
        return Err(refusal(RefusalKind::WidthTooLarge, stop));
    }
    Ok((Some(OpaqueAmount::Number(number)), None, stop))
}

// The precision at an offset, the number of its argument, and where it ends (C11 7.21.6.1, paragraphs 4
// and 5).
#[inline(always)]
fn precision_at(
    text: &[u8],
    start: usize,
    position: Option<u16>,
) -> Result<(Option<OpaqueAmount>, Option<u16>, usize), Refusal>
    requires within { start ≤ length text.now }
    ensures bytes { IfOk result (λ read. (bytes : Text) × SpellsWholePrecision bytes position (amount_at read.0 read.1)
        × HasBytes text.now start read.2 bytes) }
    ensures number { IfOk result (λ read. NumbersStar read.0 read.1) }
    ensures ended { IfOk result (λ read. PrecisionEnds text.now start read.2 position read.0) }
    ensures halt { IfErr result (HaltsAtPrecision text.now start position) }
    ensures early { IfErr result (λ refusal. is_of_combination refusal.kind ≡ false) }
{
    if !has_byte(text, start, b'.') {
        return Ok((None, None, start));
    }
    match after_point(text, start + 1, position) {
        Ok((amount, number, stop)) => Ok((Some(amount), number, stop)),
        Err(refusal) => Err(refusal),
    }
}

// The precision after its point, as `precision_at` has it.
#[inline(always)]
fn after_point(
    text: &[u8],
    start: usize,
    position: Option<u16>,
) -> Result<(OpaqueAmount, Option<u16>, usize), Refusal>
    requires within { start ≤ length text.now }
    ensures bytes { IfOk result (λ read. (bytes : Text)
        × SpellsWholePrecision (point ∷ bytes) position (amount_at (Some read.0) read.1)
        × HasBytes text.now start read.2 bytes) }
    ensures number { IfOk result (λ read. NumbersStar (Some read.0) read.1) }
    ensures ended { (before : ℕ) → start ≡ before + 1 → IfOk result
        (λ read. PrecisionEnds text.now before read.2 position (Some read.0)) }
    ensures halt { IfErr result (HaltsAtPoint text.now start position) }
    ensures early { IfErr result (λ refusal. is_of_combination refusal.kind ≡ false) }
{
    if has_byte(text, start, b'*') {
        return match star_number_at(text, start + 1, position, RefusalKind::PrecisionTooLarge) {
            Ok((number, stop)) => Ok((OpaqueAmount::Star, number, stop)),
            Err(refusal) => Err(refusal),
        };
    }
    let (number, stop) = digits_at(text, start, 0);
    if has_digit(text, stop) {
        return Err(refusal(RefusalKind::PrecisionTooLarge, stop));
    }
    Ok((OpaqueAmount::Number(number), None, stop))
}

/// Whether `%m` is at an offset of a text that has a `%`.
#[inline(always)]
pub(crate) fn has_errno(text: &[u8], at: usize) -> bool
    requires { at < length text.now }
    ensures same { result ≡ (get_or text.now (at + 1) 0 == errno_letter) }
    ensures within { IsTrue result → at + 1 < length text.now }
{
    has_byte(text, at + 1, b'm')
}

/// Whether an offset of a text has this byte, which isn't zero.
#[inline(always)]
pub(crate) fn has_byte(text: &[u8], at: usize, byte: u8) -> bool
    requires { byte ≢ 0 }
    ensures same { result ≡ (get_or text.now at 0 == byte) }
    ensures within { IsTrue result → at < length text.now }
{
    if at >= text.len() {
        return false;
    }
    text[at] == byte
}

// Whether an offset of a text has a digit.
#[inline(always)]
fn has_digit(text: &[u8], at: usize) -> bool
    ensures same { result ≡ is_digit (get_or text.now at 0) }
    ensures within { IsTrue result → at < length text.now }
{
    if at >= text.len() {
        return false;
    }
    text[at].is_ascii_digit()
}

/// Returns the length modifier at an offset, and where it ends (C11 7.21.6.1, paragraph 7).
#[inline(always)]
pub fn modifier_at(text: &[u8], start: usize) -> (WholeLength, usize)
    requires { start ≤ length text.now }
    ensures letters { HasBytes text.now start result.1 (modifier_letters result.0) }
    ensures ended { ModifierEnds text.now result.1 result.0 }
{
    if start >= text.len() {
        return (WholeLength::Integer(Length::None), start);
    }
    match length_modifier_of(text[start]) {
        Some(first) => modifier_with(text, start + 1, first),
        None => (WholeLength::Integer(Length::None), start),
    }
}

// The modifier that begins with this one of one letter, and where it ends.
#[inline(always)]
fn modifier_with(text: &[u8], start: usize, first: WholeLength) -> (WholeLength, usize)
    requires { start ≤ length text.now }
    ensures letters { (bytes : Text) × (modifier_letters result.0 ≡ modifier_letters first ++ bytes)
        × HasBytes text.now start result.1 bytes }
    ensures ended { second_modifier result.0 (get_or text.now result.1 0) ≡ None }
{
    if start >= text.len() {
        return (first, start);
    }
    match second_modifier(first, text[start]) {
        Some(modifier) => (modifier, start + 1),
        None => (first, start),
    }
}

// The modifier of two letters that a byte ends, after the first one of this modifier.
#[inline(always)]
fn second_modifier(first: WholeLength, byte: u8) -> Option<WholeLength>
    ensures { result ≡ second_modifier first byte }
{
    match first {
        WholeLength::Integer(Length::H) => match byte {
            b'h' => Some(WholeLength::Integer(Length::Hh)),
            _ => None,
        },
        WholeLength::Integer(Length::L) => match byte {
            b'l' => Some(WholeLength::Integer(Length::Ll)),
            _ => None,
        },
        _ => None,
    }
}

/// Returns the conversion at an offset (C11 7.21.6.1, paragraph 8). `Err` if there is none.
#[inline(always)]
pub fn conversion_at(text: &[u8], at: usize) -> Result<WholeConv, Refusal>
    requires { at ≤ length text.now }
    ensures letter { IfOk result (λ conversion. HasBytes text.now at (at + 1) (conversion_letter conversion ∷ [])) }
    ensures none { IfErr result (λ refusal. conversion_of (get_or text.now at 0) ≡ None) }
    ensures stray { IfErr result (IsStrayAt text.now at Unexpected) }
{
    match text.get(at) {
        None => Err(stray_at(text, at, RefusalKind::Unexpected)),
        Some(byte) => match conversion_of(*byte) {
            Some(conversion) => Ok(conversion),
            None => Err(stray_at(text, at, RefusalKind::Unexpected)),
        },
    }
}

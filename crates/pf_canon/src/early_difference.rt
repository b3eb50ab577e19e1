//! Texts that are known to differ without their canonical texts.
ghost use Rattle.std.specs.Prelude.{◌≡◌, ◌≢◌, ◌⊎◌, ◌<◌, ◌≤◌, get_or, length, take, IsTrue, false};
ghost use Rattle.pf_values.specs.declared.limits.TheConstants.{MAX_TEXT_LEN as LIMIT};
ghost use Rattle.pf_values.specs.meaning.Text.{percent};
ghost use Rattle.pf_text.specs.History.{IsLiteral};
ghost use Rattle.pf_text.specs.Walks.{AreRead, Either, IsMadeOf};
ghost use Rattle.pf_canon.specs.Comparison.{AreCommon, AreTextsSame, BeginApart};
ghost use Rattle.pf_canon.specs.Languages.{AreSameIn};

use crate::languages::Language;
use pf_text::{Walk, items_end_from, known_types};
use pf_values::limits::MAX_TEXT_LEN;
use pf_values::{ArgType, Model};

/// Whether two texts whose first `common` bytes are equal whole items are known to differ. Either then come
/// different ordinary characters, or one text ends: so they print different bytes for all arguments. Or
/// one goes on with `%`, and they take arguments of different types. False if neither is so, or if a text
/// is rejected.
#[inline(always)]
pub(crate) fn differ_after<L: Language>(
    model: Model,
    first: &[u8],
    second: &[u8],
    common: usize,
) -> bool
    requires common { AreCommon first.now second.now common }
    requires read { IsMadeOf (Either AreRead L.passes) (take common first.now) }
    ensures { IsTrue result → AreSameIn L.has_front model first.now second.now false }
{
    let first_rest = &first[common..];
    let second_rest = &second[common..];
    if !begin_apart(first_rest, second_rest) {
        return take_other_types(model, first, second);
    }
    if !is_short(first) || !is_short(second) {
        return false;
    }
    if !is_rest::<L>(first_rest) {
        return false;
    }
    is_rest::<L>(second_rest)
}

/// Returns the offset of the directive that has an offset inside it, or that offset if none seems to have it:
/// a `%`, with bytes after it that may come before a conversion. This is a guess from the bytes before the
/// offset, so the caller verifies it.
#[inline(always)]
pub(crate) fn item_start(text: &[u8], at: usize) -> usize
    requires { at ≤ length text.now }
    ensures before { result ≤ at }
    ensures percent { result < at → get_or text.now result 0 ≡ percent }
{
    let mut start = at;
    while start > 0 {
        start -= 1;
        let byte = text[start];
        if byte == b'%' {
            return start_by_percent(text, start, at);
        }
        if !may_be_within(byte) {
            return at;
        }
    }
    at
}

/// Whether two texts with equal bytes up to an offset seem to differ there inside a directive, and one has a byte there
/// that no directive has. Then that one is most often rejected.
#[inline(always)]
pub(crate) fn seem_rejected(first: &[u8], second: &[u8], common: usize) -> bool
    requires { common ≤ length first.now }
{
    if item_start(first, common) == common {
        return false;
    }
    has_stray(first, common) || has_stray(second, common)
}

// Whether a text has no byte at an offset, or one that no directive of any language has.
#[inline(always)]
fn has_stray(text: &[u8], at: usize) -> bool {
    match text.get(at) {
        Some(byte) => !may_be_in_directive(*byte),
        None => true,
    }
}

// Whether a directive of some language may have a byte. No ranges, which would be tested one after another: single
// bytes are looked up.
#[inline(always)]
#[rattlefmt::skip]
fn may_be_in_directive(byte: u8) -> bool {
    matches!(
        byte,
        b' ' | b'#' | b'$' | b'%' | b'\'' | b'*' | b'+' | b'-' | b'.' | b'0' | b'1' | b'2' | b'3' | b'4' | b'5'
            | b'6' | b'7' | b'8' | b'9' | b'A' | b'B' | b'C' | b'D' | b'E' | b'F' | b'G' | b'L' | b'S' | b'X'
            | b'a' | b'b' | b'c' | b'd' | b'e' | b'f' | b'g' | b'h' | b'i' | b'j' | b'l' | b'm' | b'n' | b'o'
            | b'p' | b's' | b't' | b'u' | b'x' | b'z'
    )
}

// The offset of the directive that the `%` at an offset begins, or `at` if it may end `%%`.
#[inline(always)]
fn start_by_percent(text: &[u8], offset: usize, at: usize) -> usize
    requires within { offset < length text.now }
    requires before { offset ≤ at }
    ensures { (result ≡ at) ⊎ (result ≡ offset) }
{
    if offset > 0 && text[offset - 1] == b'%' {
        return at;
    }
    offset
}

// Whether a byte may come before the conversion of a directive.
#[inline(always)]
fn may_be_within(byte: u8) -> bool {
    matches!(
        byte,
        b' ' | b'#' | b'\'' | b'+' | b'-' | b'.' | b'0'..=b'9' | b'h' | b'j' | b'l' | b't' | b'z'
    )
}

// The most arguments whose types are compared.
const COMPARED: usize = 32;

// Whether two texts are known to be accepted, and to take arguments of different types.
#[inline(never)]
fn take_other_types(model: Model, first: &[u8], second: &[u8]) -> bool
    ensures { IsTrue result → AreTextsSame model first.now second.now false }
{
    let mut first_types = [ArgType::Int; COMPARED];
    let mut second_types = [ArgType::Int; COMPARED];
    let Some(first_count) = known_types(model, first, &mut first_types) else {
        return false;
    };
    let Some(second_count) = known_types(model, second, &mut second_types) else {
        return false;
    };
    are_unequal(&first_types[..first_count], &second_types[..second_count])
}

#[inline(always)]
fn are_unequal(first: &[ArgType], second: &[ArgType]) -> bool
    ensures { IsTrue result → first.now ≢ second.now }
{
    first != second
}

/// Returns how many of the first `len` bytes of a text are known to be whole items.
#[inline(always)]
pub(crate) fn items_before<L: Language>(text: &[u8], len: usize) -> usize
    requires { len ≤ length text.now }
    ensures within { (result ≤ len) × (result ≤ LIMIT) }
    ensures read { IsMadeOf (Either AreRead L.passes) (take result text.now) }
{
    if len == 0 {
        return 0;
    }
    read_end::<L>(&text[..len])
}

// Whether a text that doesn't begin with `%` is accepted. Most often it is one byte, or none.
#[inline(always)]
fn is_rest<L: Language>(text: &[u8]) -> bool
    ensures { IsTrue result → IsMadeOf (Either AreRead L.passes) text.now }
{
    match text {
        [] => true,
        [byte] => is_literal(*byte),
        _ => read_end::<L>(text) == text.len(),
    }
}

#[inline(always)]
fn is_literal(byte: u8) -> bool
    ensures { IsTrue result → IsLiteral byte }
{
    byte != b'%' && byte != 0
}

// Up to which offset a text is known to be whole items. Never inlined, since three texts are read.
#[inline(never)]
fn read_end<L: Language>(text: &[u8]) -> usize
    ensures within { (result ≤ length text.now) × (result ≤ LIMIT) }
    ensures read { IsMadeOf (Either AreRead L.passes) (take result text.now) }
{
    items_end_from::<L>(Walk::new(text))
}

// Whether two texts begin with different ordinary characters, or one does and the other is empty.
#[inline(always)]
fn begin_apart(first: &[u8], second: &[u8]) -> bool
    ensures { IsTrue result → BeginApart first.now second.now }
{
    match (first, second) {
        ([one, ..], [other, ..]) => one != other && *one != b'%' && *other != b'%',
        ([one, ..], []) => *one != b'%',
        ([], [other, ..]) => *other != b'%',
        ([], []) => false,
    }
}

// Whether a text isn't longer than a format may be.
#[inline(always)]
fn is_short(text: &[u8]) -> bool
    ensures { IsTrue result → length text.now ≤ LIMIT }
{
    text.len() as u64 <= MAX_TEXT_LEN
}

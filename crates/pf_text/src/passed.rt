//! The items that a walk passes.
ghost use Rattle.std.specs.Prelude.{◌≡◌, ◌≢◌, ℕ, ◌+◌, ◌<◌, ◌≤◌, [], ◌∷◌, drop, get_or, length, take, IsFalse, IsTrue, ⊤};
ghost use Rattle.pf_values.specs.meaning.Text.{Text, percent};
ghost use Rattle.pf_text.specs.CanonicalRuns.{alternative_bytes, has_canonical_parts, is_kept_modifier};
ghost use Rattle.pf_text.specs.Offsets.{HasBytes};
ghost use Rattle.pf_text.specs.Walks.{AreItems, Either, HasPercent, IsNormalInEach, IsPercent};

use crate::letters::conv_of;
use crate::specification::{conv_at, modifier_at};
use pf_values::{Conv, Length};

/// Items that a walk passes as it does literal bytes, without a look at their parts.
pub trait Passed {
    // the bytes of these items
    ghost passes: { Text → Type 0 };

    // what is known of the byte after the `%` of another item
    ghost leaves: { ℕ → Type 0 };

    /// Returns how many bytes the item has that begins with the `%` at an offset, if it is passed. If not, 0.
    fn len(text: &[u8], at: usize) -> usize
        requires { HasPercent text.now at }
        ensures within { at + result ≤ length text.now }
        ensures left { result ≡ 0 → leaves (get_or text.now (at + 1) 0) }
        ensures passed { 0 < result → passes (take result (drop at text.now)) };
}

/// None.
#[derive(Clone, Copy, Debug)]
pub struct Nothing;

/// `%%`
#[derive(Clone, Copy, Debug)]
pub struct Percents;

/// `%%`, and directives of a conversion alone.
#[derive(Clone, Copy, Debug)]
pub struct Bare;

/// `%%`, and directives that are normal in each data model, if they have a conversion alone, or are a
/// number's with `#` or a length modifier.
#[derive(Clone, Copy, Debug)]
pub struct Canonical;

impl Passed for Nothing {
    ghost passes = { AreItems (λ item. ⊥) };

    ghost leaves = { λ byte. ⊤ };

    #[inline(always)]
    fn len(_: &[u8], _: usize) -> usize {
        0
    }
}

impl Passed for Percents {
    ghost passes = { AreItems IsPercent };

    ghost leaves = { λ byte. byte ≢ percent };

    #[inline(always)]
    fn len(text: &[u8], at: usize) -> usize {
        if text[at + 1] == b'%' {
            return 2;
        }
        0
    }
}

impl Passed for Bare {
    ghost passes = { AreItems (λ item. ⊤) };

    ghost leaves = { λ byte. byte ≢ percent };

    #[inline(always)]
    fn len(text: &[u8], at: usize) -> usize {
        let letter = text[at + 1];
        if letter == b'%' {
            return 2;
        }
        match conv_of(letter) {
            Some(_) => 2,
            None => 0,
        }
    }
}

impl Passed for Canonical {
    ghost passes = { AreItems IsNormalInEach };

    ghost leaves = { λ byte. byte ≢ percent };

    #[inline(always)]
    fn len(text: &[u8], at: usize) -> usize {
        let letter = text[at + 1];
        if ends_canonical_item(letter) {
            return 2;
        }
        match letter {
            b'#' | b'h' | b'l' => canonical_parts_len(text, at),
            _ => 0,
        }
    }
}

/// Passes the items of either language.
impl<P: Passed, Q: Passed> Passed for (P, Q) {
    ghost passes = { Either P.passes Q.passes };

    ghost leaves = { λ byte. P.leaves byte × Q.leaves byte };

    #[inline(always)]
    fn len(text: &[u8], at: usize) -> usize {
        let len = P::len(text, at);
        if len > 0 {
            return len;
        }
        Q::len(text, at)
    }
}

// Whether a byte after `%` ends a canonical item: `%`, or a conversion, but not `i`, since `%d` is the
// normal one.
#[inline(always)]
fn ends_canonical_item(letter: u8) -> bool
    ensures passed { IsTrue result → AreItems IsNormalInEach (percent ∷ letter ∷ []) }
    ensures left { IsFalse result → letter ≢ percent }
{
    if letter == b'%' {
        return true;
    }
    if letter == b'i' {
        return false;
    }
    conv_of(letter).is_some()
}

// How many bytes has the directive at an offset, if it is canonical, with `#` or a length modifier. If
// not, 0.
#[inline(always)]
fn canonical_parts_len(text: &[u8], at: usize) -> usize
    requires { HasPercent text.now at }
    ensures within { at + result ≤ length text.now }
    ensures passed { 0 < result → AreItems IsNormalInEach (take result (drop at text.now)) }
{
    let (alternative, modifier_from) = alternative_at(text, at + 1);
    let (modifier, stop) = modifier_at(text, modifier_from);
    let Some(conv) = conv_at(text, stop) else {
        return 0;
    };
    if has_canonical_parts(alternative, modifier, conv) {
        return stop + 1 - at;
    }
    0
}

// Whether `#` is at an offset, and where what follows begins.
#[inline(always)]
fn alternative_at(text: &[u8], start: usize) -> (bool, usize)
    requires { start ≤ length text.now }
    ensures { HasBytes text.now start result.1 (alternative_bytes result.0) }
{
    if start >= text.len() {
        return (false, start);
    }
    if text[start] != b'#' {
        return (false, start);
    }
    (true, start + 1)
}

// Whether a directive with `#` or without, a length modifier and a conversion is a number's, and
// normal in each data model.
#[inline(always)]
fn has_canonical_parts(alternative: bool, modifier: Length, conv: Conv) -> bool
    ensures { result ≡ has_canonical_parts alternative modifier conv }
{
    if !is_kept_modifier(modifier) {
        return false;
    }
    match conv {
        Conv::X | Conv::UpperX | Conv::B => true,
        Conv::D | Conv::U | Conv::O => !alternative,
        Conv::I | Conv::C | Conv::S => false,
    }
}

// Whether a normal directive keeps the modifier, in each data model.
fn is_kept_modifier(modifier: Length) -> bool
    ensures { result ≡ is_kept_modifier modifier }
{
    match modifier {
        Length::None | Length::Hh | Length::H | Length::L | Length::Ll => true,
        Length::J | Length::Z | Length::T => false,
    }
}

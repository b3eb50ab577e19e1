//! The parts of what a directive prints for an integer, without the spaces that fill its field.
ghost use Rattle.std.specs.Prelude.{◌≡◌, ◌≤◌, ◌+◌, ℤ, length};
ghost use Rattle.pf_values.specs.declared.limits.TheConstants.{MAX_NUMBER};
ghost use Rattle.pf_values.specs.meaning.Bases.{alternative_of};
ghost use Rattle.pf_values.specs.meaning.Printing.{prefix_under, sign, sign_or_prefix};
ghost use Rattle.pf_render.specs.declared.digits.TheConstants.{MAX_DIGITS};
ghost use Rattle.pf_render.specs.IntegerParts.{HasParts, parts_len, sign_or_prefix_text};
ghost use Rattle.pf_render.specs.Values.{HasSignAndMagnitude};
ghost use Rattle.pf_render.specs.Zeros.{fewest_digits, zeros_for};

use crate::values::Value;
use pf_values::{Alternative, Base, Directive, Flag, Kind};

/// What comes right before the zeros and digits of a number.
#[derive(Clone, Copy, PartialEq, Eq)]
pub enum SignOrPrefix {
    /// No byte.
    Nothing,
    /// The sign of a negative number.
    Minus,
    /// The sign that the flag `+` asks for.
    Plus,
    /// The space that the flag ` ` asks for.
    Space,
    /// The prefix of a base, with capitals or without.
    Letters(Base, bool),
}

/// What a directive prints for an integer, without the spaces that fill its field: a sign or prefix,
/// zeros, and the digits of its magnitude.
#[derive(Clone, Copy)]
pub struct IntegerParts {
    /// The sign or prefix.
    pub prefix: SignOrPrefix,
    /// The number of zeros before the digits.
    pub zeros: u16,
    /// The number of digits, none for 0.
    pub digit_count: u16,
    /// The number without its sign.
    pub magnitude: u64,
}

impl SignOrPrefix {
    fn of(directive: &Directive, value: Value) -> SignOrPrefix
        ensures { (v : ℤ) → HasSignAndMagnitude value v
            → sign_or_prefix_text result ≡ sign_or_prefix directive.now v }
    {
        match directive.conv().kind() {
            Kind::Signed => SignOrPrefix::of_signed(directive, value),
            Kind::Unsigned(base, capitals) => {
                SignOrPrefix::of_unsigned(directive, value, base, capitals)
            }
            Kind::Char | Kind::String => SignOrPrefix::Nothing,
        }
    }

    fn of_signed(directive: &Directive, value: Value) -> SignOrPrefix
        ensures { (v : ℤ) → HasSignAndMagnitude value v
            → sign_or_prefix_text result ≡ sign directive.now v }
    {
        let flags = directive.flags();
        if value.is_negative {
            SignOrPrefix::Minus
        } else if flags.has(Flag::Plus) {
            SignOrPrefix::Plus
        } else if flags.has(Flag::Space) {
            SignOrPrefix::Space
        } else {
            SignOrPrefix::Nothing
        }
    }

    fn of_unsigned(directive: &Directive, value: Value, base: Base, capitals: bool) -> SignOrPrefix
        ensures { (v : ℤ) → HasSignAndMagnitude value v → sign_or_prefix_text result
            ≡ prefix_under (alternative_of base) base capitals directive.now v }
    {
        let flags = directive.flags();
        match base.alternative() {
            Alternative::Prefixed if flags.has(Flag::Alt) && value.magnitude != 0 => {
                SignOrPrefix::Letters(base, capitals)
            }
            Alternative::Undefined | Alternative::Raised | Alternative::Prefixed =>
                SignOrPrefix::Nothing,
        }
    }

    /// Returns its bytes.
    pub fn text(self) -> &'static [u8]
        ensures value { result.now ≡ sign_or_prefix_text self }
        ensures short { length result.now ≤ 2 }
    {
        match self {
            SignOrPrefix::Nothing => b"",
            SignOrPrefix::Minus => b"-",
            SignOrPrefix::Plus => b"+",
            SignOrPrefix::Space => b" ",
            SignOrPrefix::Letters(base, capitals) => base.prefix(capitals),
        }
    }

    /// Returns how many bytes it has.
    pub fn len(self) -> u16
        ensures value { result ≡ length (sign_or_prefix_text self) }
        ensures short { result ≤ 2 }
    {
        match self {
            SignOrPrefix::Nothing => 0,
            SignOrPrefix::Minus | SignOrPrefix::Plus | SignOrPrefix::Space => 1,
            SignOrPrefix::Letters(base, capitals) => base.prefix(capitals).len() as u16,
        }
    }
}

impl IntegerParts {
    /// Returns the parts of a value that has `digit_count` digits, none for 0 (C11 7.21.6.1,
    /// paragraphs 6 and 8).
    pub fn of(directive: &Directive, value: Value, digit_count: u16) -> IntegerParts
        requires { digit_count ≤ MAX_DIGITS }
        ensures parts { (v : ℤ) → HasSignAndMagnitude value v
            → HasParts directive.now v digit_count result }
        ensures few { (result.zeros ≤ MAX_NUMBER) × (result.digit_count ≤ MAX_DIGITS) }
    {
        let prefix = SignOrPrefix::of(directive, value);
        IntegerParts {
            prefix,
            zeros: zero_count(directive, prefix.len(), digit_count),
            digit_count,
            magnitude: value.magnitude,
        }
    }

    /// Returns how many bytes these parts are.
    pub fn len(&self) -> usize
        ensures value { result ≡ parts_len self.now }
        ensures short { result ≤ 2 + 65535 + 65535 }
    {
        usize::from(self.prefix.len()) + usize::from(self.zeros) + usize::from(self.digit_count)
    }
}

// How many zeros come before `count` digits, after a sign or prefix of `prefix_len` bytes.
fn zero_count(directive: &Directive, prefix_len: u16, count: u16) -> u16
    requires { count ≤ MAX_DIGITS }
    ensures value { result ≡ zeros_for directive.now prefix_len count }
    ensures few { result ≤ MAX_NUMBER }
{
    let precision = directive.effective_precision(prefix_len);
    precision.max(fewest_digits(directive, count)) - count
}

// The fewest digits that are printed of a number with `count`: `#` may put a zero before them.
fn fewest_digits(directive: &Directive, count: u16) -> u16
    requires { count ≤ MAX_DIGITS }
    ensures value { result ≡ fewest_digits directive.now count }
    ensures at_least { (count ≤ result) × (result ≤ count + 1) }
{
    if !directive.flags().has(Flag::Alt) {
        return count;
    }
    match directive.conv().kind().alternative() {
        Alternative::Raised => count + 1,
        Alternative::Undefined | Alternative::Prefixed => count,
    }
}

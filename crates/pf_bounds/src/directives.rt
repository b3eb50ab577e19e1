//! How many bytes a directive prints at least and at most.
ghost use Rattle.std.specs.Prelude.{◌≡◌, ◌≤◌, IsFalse, ℤ};
ghost use Rattle.pf_values.specs.declared.conversions.Kind.TheVariants as kinds;
ghost use Rattle.pf_values.specs.meaning.Conversions.{is_text, kind_of};
ghost use Rattle.pf_render.specs.Values.{HasSignAndMagnitude};
ghost use Rattle.pf_bounds.specs.Bounds.{AreBoundsOf, AreWithin, CanPrint};
ghost use Rattle.pf_bounds.specs.FieldLengths.{field_len, item_limit};

use crate::sums::Bounds;
use pf_render::{IntegerParts, Value};
use pf_values::{Directive, Kind, Model};

/// The numbers of bytes that a directive prints (C11 7.21.6.1, paragraphs 4 to 8).
pub(crate) fn directive_bounds(model: Model, directive: &Directive) -> Bounds
    ensures value { AreBoundsOf (CanPrint model directive.now) result.least result.greatest }
    ensures few { AreWithin result.least result.greatest item_limit }
{
    match directive.conv().kind() {
        Kind::Signed => number_bounds(model, directive),
        Kind::Unsigned(_, _) => number_bounds(model, directive),
        Kind::Char => char_bounds(model, directive),
        Kind::String => string_bounds(model, directive),
    }
}

// Of a number: 0 prints the fewest bytes, and the number with the most digits the most, which is below
// 0 where one may be.
fn number_bounds(model: Model, directive: &Directive) -> Bounds
    requires integer { IsFalse (is_text directive.now.conv) }
    ensures value { AreBoundsOf (CanPrint model directive.now) result.least result.greatest }
    ensures few { AreWithin result.least result.greatest item_limit }
{
    let zero = Value {
        is_negative: false,
        magnitude: 0,
    };
    let longest = Value {
        is_negative: true,
        magnitude: 1,
    };
    let most_digits = u16::from(directive.max_digits(model));
    Bounds {
        least: u128::from(field_len(directive, zero, 0)),
        greatest: Some(u128::from(field_len(directive, longest, most_digits))),
    }
}

// How many bytes are printed of a value with the sign or prefix of this one and this number of digits.
fn field_len(directive: &Directive, value: Value, digit_count: u16) -> u32
    requires { digit_count ≤ 64 }
    ensures value { (v : ℤ) → HasSignAndMagnitude value v → result ≡ field_len directive.now v digit_count }
    ensures few { result ≤ item_limit }
{
    let parts = IntegerParts::of(directive, value, digit_count);
    let len = parts.len() as u32;
    len.max(u32::from(directive.width().unwrap_or(0)))
}

// Of a byte.
fn char_bounds(model: Model, directive: &Directive) -> Bounds
    requires { kind_of directive.now.conv ≡ kinds.Char }
    ensures value { AreBoundsOf (CanPrint model directive.now) result.least result.greatest }
    ensures few { AreWithin result.least result.greatest item_limit }
{
    Bounds::exactly(u128::from(directive.width().unwrap_or(0).max(1)))
}

// Of a string.
fn string_bounds(model: Model, directive: &Directive) -> Bounds
    requires { kind_of directive.now.conv ≡ kinds.String }
    ensures value { AreBoundsOf (CanPrint model directive.now) result.least result.greatest }
    ensures few { AreWithin result.least result.greatest item_limit }
{
    let width = directive.width().unwrap_or(0);
    match directive.precision() {
        None => Bounds {
            least: u128::from(width),
            greatest: None,
        },
        Some(precision) => Bounds {
            least: u128::from(width),
            greatest: Some(u128::from(precision.max(width))),
        },
    }
}

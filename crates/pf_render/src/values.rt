//! The values that directives print for numbers.
ghost use Rattle.std.specs.Prelude.{◌≡◌, IsFalse, true, false};
ghost use Rattle.pf_values.specs.meaning.Conversions.{is_signed, is_text};
ghost use Rattle.pf_values.specs.meaning.DataModel.{Bits, bit_count, bits_under};
ghost use Rattle.pf_render.specs.Values.{IsOfValue};

use pf_values::{Directive, Kind, Model, ValueKind};

/// The value that a directive prints for a number, by its sign and its magnitude.
#[derive(Clone, Copy)]
pub struct Value {
    /// Whether it is below 0.
    pub is_negative: bool,
    /// The number without its sign.
    pub magnitude: u64,
}

impl Value {
    /// Returns the value of the number in the range that the length modifier and the conversion
    /// name.
    pub fn of(model: Model, directive: &Directive, number: i128) -> Value
        requires integer { IsFalse (is_text directive.now.conv) }
        ensures { IsOfValue (is_signed directive.now.conv)
            (bit_count (bits_under model directive.now.length)) number result }
    {
        match directive.conv().kind() {
            Kind::Signed => Value::of_signed(directive.bits(model), number),
            _ => Value::of_unsigned(directive.bits(model), number),
        }
    }

    fn of_signed(bits: u8, number: i128) -> Value
        requires { (b : Bits) × (bits ≡ bit_count b) }
        ensures { IsOfValue true bits number result }
    {
        match bits {
            8 => Value::of_kind::<i8>(number),
            16 => Value::of_kind::<i16>(number),
            32 => Value::of_kind::<i32>(number),
            _ => Value::of_kind::<i64>(number),
        }
    }

    fn of_unsigned(bits: u8, number: i128) -> Value
        requires { (b : Bits) × (bits ≡ bit_count b) }
        ensures { IsOfValue false bits number result }
    {
        match bits {
            8 => Value::of_kind::<u8>(number),
            16 => Value::of_kind::<u16>(number),
            32 => Value::of_kind::<u32>(number),
            _ => Value::of_kind::<u64>(number),
        }
    }

    fn of_kind<V: ValueKind>(number: i128) -> Value
        ensures { IsOfValue V.is_signed (bit_count V.bits) number result }
    {
        let value = V::of(number);
        Value {
            is_negative: value.is_negative(),
            magnitude: value.unsigned_abs(),
        }
    }
}

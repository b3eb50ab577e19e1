//! What directives print of numbers.
ghost use Rattle.std.specs.Prelude.{IsFalse};
ghost use Rattle.pf_values.specs.meaning.Arguments.{Number};
ghost use Rattle.pf_values.specs.meaning.Conversions.{is_text};
ghost use Rattle.pf_values.specs.meaning.Printing.{Prints};
ghost use Rattle.pf_values.specs.meaning.Text.{Text};
ghost use Rattle.pf_render.specs.Outputs.{WritesCounted};

use crate::digits::{MAX_DIGITS, write_digits_of};
use crate::fields::write_field;
use crate::integer_parts::IntegerParts;
use crate::outputs::Output;
use crate::values::Value;
use pf_values::{Directive, Model, ShortWrite, padding};

/// Writes what the directive prints of a number (C11 7.21.6.1, paragraphs 4 to 8).
pub(crate) fn write_integer<O: Output>(
    model: Model,
    directive: &Directive,
    number: i128,
    writer: &mut O,
) -> Result<usize, ShortWrite>
    requires integer { IsFalse (is_text directive.now.conv) }
    ensures { (out : Text) × Prints model directive.now (Number number) out
        × WritesCounted O.wrote O.stopped writer.old writer.new out result }
{
    let value = Value::of(model, directive, number);
    let mut buf = [0; MAX_DIGITS];
    let start = write_digits_of(value.magnitude, directive.conv().kind(), &mut buf);
    let (_, digits) = buf.split_at(start);
    let parts = IntegerParts::of(directive, value, digits.len() as u16);
    let zeros = padding::zeros(usize::from(parts.zeros));
    write_field(directive, parts.prefix.text(), zeros, digits, writer)
}

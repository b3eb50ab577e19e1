//! What directives print of bytes and of strings.
ghost use Rattle.std.specs.Prelude.{◌≡◌};
ghost use Rattle.pf_values.specs.declared.conversions.Kind.TheVariants as kinds;
ghost use Rattle.pf_values.specs.meaning.Arguments.{Number, String};
ghost use Rattle.pf_values.specs.meaning.Conversions.{kind_of};
ghost use Rattle.pf_values.specs.declared.models.Model.{Model};
ghost use Rattle.pf_values.specs.meaning.Printing.{Prints, printed_front};
ghost use Rattle.pf_values.specs.meaning.Text.{Text};
ghost use Rattle.pf_render.specs.Outputs.{WritesCounted};

use crate::fields::write_text;
use crate::outputs::Output;
use pf_values::{Directive, ShortWrite, ValueKind};

/// Writes the byte that a number is as an `unsigned char` (C11 7.21.6.1, paragraph 8, `c`).
pub(crate) fn write_char<O: Output>(
    directive: &Directive,
    number: i128,
    writer: &mut O,
) -> Result<usize, ShortWrite>
    requires char { kind_of directive.now.conv ≡ kinds.Char }
    ensures { (model : Model) → (out : Text) × Prints model directive.now (Number number) out
        × WritesCounted O.wrote O.stopped writer.old writer.new out result }
{
    let byte = [u8::of(number)];
    write_text(directive, &byte, writer)
}

/// Writes a string, and no more of it than the precision says (C11 7.21.6.1, paragraph 8, `s`).
pub(crate) fn write_string<O: Output>(
    directive: &Directive,
    bytes: &[u8],
    writer: &mut O,
) -> Result<usize, ShortWrite>
    requires string { kind_of directive.now.conv ≡ kinds.String }
    ensures { (model : Model) → (out : Text) × Prints model directive.now (String bytes.now) out
        × WritesCounted O.wrote O.stopped writer.old writer.new out result }
{
    write_text(directive, printed_front(directive, bytes), writer)
}

// The bytes of a string up to the precision.
fn printed_front<'a>(directive: &Directive, bytes: &'a [u8]) -> &'a [u8]
    ensures { result.now ≡ printed_front directive.now.precision bytes.now }
{
    match directive.precision() {
        Some(most) => &bytes[..usize::from(most).min(bytes.len())],
        None => bytes,
    }
}

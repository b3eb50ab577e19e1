//! What a directive prints for an argument.
ghost use Rattle.std.specs.Prelude.{◌≡◌, ◌≢◌, ℤ};
ghost use Rattle.pf_values.specs.Arg.{argument_of};
ghost use Rattle.pf_values.specs.meaning.Arguments.{HasType, Number, String};
ghost use Rattle.pf_values.specs.Counting.{WritesUpTo};
ghost use Rattle.pf_values.specs.meaning.DataModel.{arg_type};
ghost use Rattle.pf_values.specs.Laws.{PrintsOnly};
ghost use Rattle.pf_values.specs.meaning.Text.{Text};
ghost use Rattle.pf_render.specs.Outputs.{WritesCounted};

use crate::arguments::FormatArgument;
use crate::faults::WriteFault;
use crate::integers::write_integer;
use crate::outputs::Output;
use crate::texts::{write_char, write_string};
use pf_values::{Arg, Counted, Directive, Kind, Model, ShortWrite};
use std::io::Write;

/// Writes what the directive prints for an argument of its type in this data model (C11 7.21.6.1).
/// `Err` if the writer fails, or takes none of some bytes: then exactly the first `written` bytes
/// went out, fewer than all. It doesn't flush, and allocates nothing.
pub fn render_one<W: Write>(
    model: Model,
    directive: &Directive,
    argument: Arg<'_>,
    writer: &mut Counted<W>,
) -> Result<(), WriteFault>
    requires typed { HasType model (argument_of argument) (arg_type model directive.now) }
    ensures { (out : Text) × PrintsOnly model directive.now (argument_of argument.entry) out
        × WritesUpTo W.contents writer.old writer.new out (λ fault. fault.written) result }
{
    write_argument(model, directive, &argument, writer)?;
    Ok(())
}

/// Writes what the directive prints for an argument of its type, and returns how many bytes that
/// were.
// Never inlined, so that literal bytes are written without the setup of this function.
#[inline(never)]
pub(crate) fn write_argument<A: FormatArgument, O: Output>(
    model: Model,
    directive: &Directive,
    argument: &A,
    writer: &mut O,
) -> Result<usize, ShortWrite>
    requires typed { HasType model (A.argument_of argument.now) (arg_type model directive.now) }
    ensures { (out : Text) × PrintsOnly model directive.now (A.argument_of argument.now) out
        × WritesCounted O.wrote O.stopped writer.old writer.new out result }
{
    match directive.conv().kind() {
        Kind::String => write_string(directive, string_of(argument), writer),
        Kind::Char => write_char(directive, number_of(argument), writer),
        _ => write_integer(model, directive, number_of(argument), writer),
    }
}

// The number that an argument is, if it isn't a string.
fn number_of<A: FormatArgument>(argument: &A) -> i128
    requires { (bytes : Text) → A.argument_of argument.now ≢ String bytes }
    ensures { A.argument_of argument.now ≡ Number result }
{
    match argument.as_number() {
        Some(number) => number,
        None => unreachable!(),
    }
}

// The bytes of the string that an argument is, if it isn't a number.
fn string_of<A: FormatArgument>(argument: &A) -> &[u8]
    requires { (number : ℤ) → A.argument_of argument.now ≢ Number number }
    ensures { A.argument_of argument.now ≡ String result.now }
{
    match argument.as_string() {
        Some(bytes) => bytes,
        None => unreachable!(),
    }
}

//! Fields: texts with spaces up to a width.
ghost use Rattle.std.specs.Prelude.{◌≡◌, ◌++◌, ◌<◌, ◌^◌, length};
ghost use Rattle.pf_render.specs.Outputs.{WritesCounted};
ghost use Rattle.pf_render.specs.Parts.{join};
ghost use Rattle.pf_values.specs.meaning.Printing.{field, padding};
ghost use Rattle.pf_values.specs.meaning.Specification.{width_of};

use crate::outputs::Output;
use pf_values::padding::spaces;
use pf_values::{Directive, Flag, ShortWrite};

/// Writes a text of three parts in the field of the directive (C11 7.21.6.1, paragraph 4), and
/// returns how many bytes that were.
pub(crate) fn write_field<'a, O: Output>(
    directive: &Directive,
    first: &'a [u8],
    second: &'a [u8],
    third: &'a [u8],
    writer: &mut O,
) -> Result<usize, ShortWrite>
    requires { length (first.now ++ (second.now ++ third.now)) < 2 ^ 63 }
    ensures { WritesCounted O.wrote O.stopped writer.old writer.new
        (field directive.now (first.now ++ (second.now ++ third.now))) result }
{
    // Most numbers have no sign, no prefix and no zeros before them.
    if first.len() + second.len() == 0 {
        return write_text(directive, third, writer);
    }
    write_three(directive, first, second, third, writer)
}

// Writes a text of three parts in the field of the directive, whatever their lengths.
#[inline(never)]
fn write_three<'a, O: Output>(
    directive: &Directive,
    first: &'a [u8],
    second: &'a [u8],
    third: &'a [u8],
    writer: &mut O,
) -> Result<usize, ShortWrite>
    requires { length (first.now ++ (second.now ++ third.now)) < 2 ^ 63 }
    ensures { WritesCounted O.wrote O.stopped writer.old writer.new
        (field directive.now (first.now ++ (second.now ++ third.now))) result }
{
    let len = first.len() + second.len() + third.len();
    let width = usize::from(directive.width().unwrap_or(0));
    let padding = spaces(width.saturating_sub(len));
    if directive.flags().has(Flag::Minus) {
        write_parts(&[first, second, third, padding], writer)
    } else {
        write_parts(&[padding, first, second, third], writer)
    }
}

/// Writes a text of one part in the field of the directive, and returns how many bytes that were.
pub(crate) fn write_text<O: Output>(
    directive: &Directive,
    text: &[u8],
    writer: &mut O,
) -> Result<usize, ShortWrite>
    requires { length text.now < 2 ^ 63 }
    ensures { WritesCounted O.wrote O.stopped writer.old writer.new (field directive.now text.now) result }
{
    let width = usize::from(directive.width().unwrap_or(0));
    if width <= text.len() {
        return write_counted(text, writer);
    }
    write_filled(directive, spaces(width - text.len()), text, writer)
}

// Writes a text and these spaces, which fill up the field of the directive.
#[inline(never)]
fn write_filled<O: Output>(
    directive: &Directive,
    fill: &[u8],
    text: &[u8],
    writer: &mut O,
) -> Result<usize, ShortWrite>
    requires small { length text.now < 2 ^ 63 }
    requires fill { fill.now ≡ padding (width_of directive.now) text.now }
    ensures { WritesCounted O.wrote O.stopped writer.old writer.new (field directive.now text.now) result }
{
    if directive.flags().has(Flag::Minus) {
        write_two(text, fill, writer)
    } else {
        write_two(fill, text, writer)
    }
}

// Writes a text, and another one after it.
fn write_two<O: Output>(first: &[u8], second: &[u8], writer: &mut O) -> Result<usize, ShortWrite>
    requires { length (first.now ++ second.now) < 2 ^ 64 }
    ensures { WritesCounted O.wrote O.stopped writer.old writer.new (first.now ++ second.now) result }
{
    let before = match write_counted(first, writer) {
        Ok(count) => count,
        Err(short) => return Err(short),
    };
    match write_counted(second, writer) {
        Ok(count) => Ok(before + count),
        Err(short) => Err(ShortWrite {
            written: before + short.written,
        }),
    }
}

/// Writes bytes, and returns how many they are.
pub(crate) fn write_counted<O: Output>(bytes: &[u8], writer: &mut O) -> Result<usize, ShortWrite>
    ensures { WritesCounted O.wrote O.stopped writer.old writer.new bytes.now result }
{
    match writer.put(bytes) {
        Ok(()) => Ok(bytes.len()),
        Err(short) => Err(short),
    }
}

// Writes the parts, one after another.
fn write_parts<O: Output>(parts: &[&[u8]], writer: &mut O) -> Result<usize, ShortWrite>
    requires { length (join parts.now) < 2 ^ 64 }
    ensures { WritesCounted O.wrote O.stopped writer.old writer.new (join parts.now) result }
{
    let mut written = 0;
    for part in parts {
        if let Err(short) = writer.put(part) {
            return Err(ShortWrite {
                written: written + short.written,
            });
        }
        written += part.len();
    }
    Ok(written)
}

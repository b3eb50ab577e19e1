//! What a format prints for arguments.
ghost use Rattle.pf_render.specs.Matching.{TakesArguments};
ghost use Rattle.pf_render.specs.Outputs.{PutsUpTo};
ghost use Rattle.pf_render.specs.Rendering.{RendersInto, RendersIntoBy, RendersToBy};

use crate::argument_lists::check_arguments;
use crate::arguments::FormatArgument;
use crate::faults::{RenderFault, WriteFault};
use crate::format_parts::FormatPart;
use crate::gathered_text::GatheredText;
use crate::gathering::{gather, write_gathered};
use crate::outputs::Output;
use crate::progress::Progress;
use pf_text::Pieces;
use pf_values::{Arg, Counted, Model};
use std::io::Write;

/// Writes what a format prints for arguments of its types in this data model (C11 7.21.6.1). `Err`
/// if the text is rejected, or the arguments are not those that it takes: then nothing is written. A
/// number out of its type's range is of another type. `Err` also if the writer fails, or takes none
/// of some bytes: then exactly the first bytes went out, as many as the fault says, and fewer than
/// all. It doesn't flush, and allocates nothing.
pub fn render<W: Write>(
    model: Model,
    text: &[u8],
    args: &[Arg<'_>],
    writer: &mut Counted<W>,
) -> Result<(), RenderFault>
    ensures { RendersInto model W.contents writer.old writer.new text.now args.now result }
{
    let mut room = GatheredText::new();
    if gather(model, text, args, &mut room) {
        return write_gathered(room.as_slice(), args, writer);
    }
    render_checked(model, text, args, writer)
}

/// `render` of a format that is read before it is written: what it prints may be long, and a fault is
/// found there.
#[inline(never)]
pub(crate) fn render_checked<A: FormatArgument, O: Output>(
    model: Model,
    text: &[u8],
    args: &[A],
    writer: &mut O,
) -> Result<(), RenderFault>
    ensures { RendersIntoBy A.type_of A.argument_of O.wrote O.stopped model writer.old writer.new
        text.now args.now result }
{
    check_arguments(model, text, args)?;
    write_pieces(model, text, args, writer)?;
    Ok(())
}

/// Writes what a format prints for the arguments that it takes.
#[inline(never)]
pub(crate) fn write_pieces<A: FormatArgument, O: Output>(
    model: Model,
    text: &[u8],
    args: &[A],
    writer: &mut O,
) -> Result<(), WriteFault>
    requires { TakesArguments A.type_of A.argument_of model text.now args.now }
    ensures { RendersToBy A.type_of A.argument_of model text.now args.now
        (λ out. PutsUpTo O.wrote O.stopped (λ fault. fault.written) writer.old writer.new out result) }
{
    let mut progress = Progress::new();
    for piece in Pieces::new(text) {
        let piece = match piece {
            Ok(piece) => piece,
            Err(_) => unreachable!(),
        };
        progress.write(model, &FormatPart::of(&piece), args, writer)?;
    }
    Ok(())
}

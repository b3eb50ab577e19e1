//! What a short format prints, gathered in memory before any of it is written.
ghost use Rattle.std.specs.Prelude.{◌≡◌, [], ◌∷◌, IsTrue, Some, slice_get};
ghost use Rattle.pf_values.specs.declared.models.Model.{Model};
ghost use Rattle.pf_values.specs.meaning.Items as items;
ghost use Rattle.pf_values.specs.meaning.Text.{Text};
ghost use Rattle.pf_render.specs.Gathering.{IsGatheredSoFar};
ghost use Rattle.pf_render.specs.Rendering.{RendersBy, RendersIntoBy, RendersToBy};

use crate::arguments::FormatArgument;
use crate::directives::write_argument;
use crate::faults::RenderFault;
use crate::outputs::Output;
use pf_text::{Piece, Pieces};
use pf_values::{Directive, Model};

/// Checks the arguments and writes what the format prints for them, in one go. False if the text is
/// rejected, if the arguments are not those that it takes, or if the writer fails; then some of it may
/// have been written.
pub(crate) fn gather<A: FormatArgument, O: Output>(
    model: Model,
    text: &[u8],
    args: &[A],
    writer: &mut O,
) -> bool
    ensures { IsTrue result → RendersToBy A.type_of A.argument_of model text.now args.now
        (λ out. O.wrote writer.old writer.new out) }
{
    let given = args.len();
    let mut taken = 0;
    for piece in Pieces::new(text) {
        let piece = match piece {
            Ok(piece) => piece,
            Err(_) => return false,
        };
        match piece {
            Piece::Directive(directive) => {
                if !gather_directive(model, &directive, args, taken, writer) {
                    return false;
                }
                taken += 1;
            }
            Piece::Literal(bytes) => {
                if !gather_bytes(bytes, writer) {
                    return false;
                }
            }
            Piece::Percent => {
                if !gather_bytes(b"%", writer) {
                    return false;
                }
            }
        }
    }
    taken == given
}

// Writes what a directive prints for the argument at this index, and returns whether there is one of its
// type, and all was written.
fn gather_directive<A: FormatArgument, O: Output>(
    model: Model,
    directive: &Directive,
    args: &[A],
    index: usize,
    writer: &mut O,
) -> bool
    ensures { IsTrue result → (arg : A) × (slice_get args.now index ≡ Some arg)
        × IsGatheredSoFar A.type_of A.argument_of O.wrote model writer.old writer.new
        (items.Directive directive.now ∷ []) (arg ∷ []) }
{
    let Some(arg) = args.get(index) else {
        return false;
    };
    if !arg.has_type(model, directive.arg_type(model)) {
        return false;
    }
    match write_argument(model, directive, arg, writer) {
        Ok(_) => true,
        Err(_) => false,
    }
}

// Writes literal bytes, and returns whether all were written.
fn gather_bytes<O: Output>(bytes: &[u8], writer: &mut O) -> bool
    ensures { IsTrue result → O.wrote writer.old writer.new bytes.now }
{
    match writer.put(bytes) {
        Ok(()) => true,
        Err(_) => false,
    }
}

/// Writes what a format prints for these arguments, once that was gathered.
pub(crate) fn write_gathered<A: FormatArgument, O: Output>(
    bytes: &[u8],
    _args: &[A],
    writer: &mut O,
) -> Result<(), RenderFault>
    ensures { (model : Model) (t : Text)
        → RendersBy A.type_of A.argument_of model t _args.now bytes.now
        → RendersIntoBy A.type_of A.argument_of O.wrote O.stopped model writer.old writer.new t
        _args.now result }
{
    match writer.put(bytes) {
        Ok(()) => Ok(()),
        Err(short) => Err(RenderFault::Write(short.written as u128)),
    }
}

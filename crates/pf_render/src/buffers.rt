//! What a format prints, in a buffer of the caller's.
ghost use Rattle.std.specs.Prelude.{◌≡◌, ◌≤◌, ◌<◌, ◌^◌, ◌++◌, MatchResult, drop, length};
ghost use Rattle.pf_values.specs.meaning.Text.{Text};
ghost use Rattle.pf_render.specs.Matching.{TakesArguments};
ghost use Rattle.pf_render.specs.Rendering.{IsPutIfFits, RendersBy, RendersIfFitsBy, RendersToBy};

use crate::argument_lists::check_arguments;
use crate::arguments::FormatArgument;
use crate::faults::{RenderVecFault, WriteFault};
use crate::filling::Filling;
use crate::formats::write_pieces;
use crate::gathered_text::GatheredText;
use crate::gathering::gather;
use crate::rendered_vec::memory_fault;
use crate::text_length::TextLength;
use pf_values::Model;

/// Puts what a format prints for arguments of its types in this data model at the front of a buffer
/// that has room for all of it, and leaves any other buffer as it was (C11 7.21.6.1). Returns how many
/// bytes are printed, either way; an `Err` if the format is rejected or the arguments don't fit it, and
/// `Memory` if it prints 2^63 bytes or more. Allocates nothing.
pub fn render_into<A: FormatArgument>(
    model: Model,
    text: &[u8],
    args: &[A],
    out: &mut [u8],
) -> Result<usize, RenderVecFault>
    ensures { RendersIfFitsBy A.type_of A.argument_of model text.now args.now out.old out.new
        result }
{
    let mut room = GatheredText::new();
    if gather(model, text, args, &mut room) {
        return Ok(put_if_fits(room.as_slice(), out));
    }
    put_long(model, text, args, out)
}

// Puts bytes at the front of a buffer that has room for them, and returns how many they are.
fn put_if_fits(bytes: &[u8], out: &mut [u8]) -> usize
    ensures len { result ≡ length bytes.now }
    ensures put { IsPutIfFits bytes.now out.old out.new }
{
    if bytes.len() <= out.len() {
        let (front, _) = out.split_at_mut(bytes.len());
        front.copy_from_slice(bytes);
    }
    bytes.len()
}

// `render_into` of a format that prints much, or where a fault is found.
#[inline(never)]
fn put_long<A: FormatArgument>(
    model: Model,
    text: &[u8],
    args: &[A],
    out: &mut [u8],
) -> Result<usize, RenderVecFault>
    ensures { RendersIfFitsBy A.type_of A.argument_of model text.now args.now out.old out.new
        result }
{
    if let Err(fault) = check_arguments(model, text, args) {
        return Err(memory_fault(fault));
    }
    let len = match printed_len(model, text, args) {
        Ok(len) => len,
        Err(_) => return Err(RenderVecFault::Memory),
    };
    if len > out.len() {
        return Ok(len);
    }
    fill(model, text, args, out);
    Ok(len)
}

// How many bytes a format prints for the arguments that it takes, fewer than 2^63.
fn printed_len<A: FormatArgument>(
    model: Model,
    text: &[u8],
    args: &[A],
) -> Result<usize, WriteFault>
    requires { TakesArguments A.type_of A.argument_of model text.now args.now }
    ensures { RendersToBy A.type_of A.argument_of model text.now args.now
        (λ out. MatchResult result (λ len. (len ≡ length out) × (len < 2 ^ 63))
        (λ _. 2 ^ 63 ≤ length out)) }
{
    let mut length = TextLength::new();
    write_pieces(model, text, args, &mut length)?;
    Ok(length.len)
}

// Puts what a format prints for the arguments that it takes at the front of a buffer with room for it.
fn fill<A: FormatArgument>(model: Model, text: &[u8], args: &[A], out: &mut [u8])
    requires takes { TakesArguments A.type_of A.argument_of model text.now args.now }
    requires room { (printed : Text)
        → RendersBy A.type_of A.argument_of model text.now args.now printed
        → length printed ≤ length out.old }
    ensures { RendersToBy A.type_of A.argument_of model text.now args.now
        (λ printed. out.new ≡ printed ++ drop (length printed) out.old) }
{
    let mut front = Filling {
        buffer: out,
        len: 0,
    };
    match write_pieces(model, text, args, &mut front) {
        Ok(()) => {}
        Err(_) => unreachable!(),
    }
}

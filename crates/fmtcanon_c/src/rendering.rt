//! What a format prints for arguments.
ghost use Rattle.std.specs.Prelude.{◌≡◌};
ghost use Rattle.fmtcanon_c.specs.Models.{InModel};
ghost use Rattle.fmtcanon_c.specs.Rendering.{IsArgumentError, PrintsInto, PutsPrinted};

use crate::arguments::CArgument;
use crate::interface::{
    CError, NO_MEMORY, NO_MODEL, WRONG_COUNT, WRONG_TYPE, model_of, put_refusal,
};
use pf_render::{RenderVecFault, render_into};
use pf_text::Side;
use pf_values::Model;

/// Puts what a format prints for arguments, and a zero after it, into a buffer that has room for
/// both. Returns the number of bytes printed, or the code of an error. Allocates nothing.
#[unsafe(no_mangle)]
pub extern "C" fn fmtcanon_render(
    model: i32,
    text: &[u8],
    args: &[CArgument<'_>],
    out: &mut [u8],
    error: &mut CError,
) -> i64
    ensures { InModel model
        (λ m. PutsPrinted m text.now args.now out.old error.old result out.new error.new)
        result ((out.new ≡ out.old) × (error.new ≡ error.old)) }
{
    let Some(model) = model_of(model) else {
        return NO_MODEL;
    };
    match render_ended(model, text, args, out) {
        Ok(len) => len as i64,
        Err(RenderVecFault::Refused(refusal)) => put_refusal(error, Side::First, refusal),
        Err(RenderVecFault::WrongCount { wanted, given: _ }) => {
            put_argument_error(error, WRONG_COUNT, wanted)
        }
        Err(RenderVecFault::WrongType(index)) => put_argument_error(error, WRONG_TYPE, index),
        Err(RenderVecFault::Memory) => NO_MEMORY,
    }
}

// Puts what a format prints and a zero after it into a buffer that has room for both, and returns how
// many bytes are printed.
fn render_ended(
    model: Model,
    text: &[u8],
    args: &[CArgument<'_>],
    out: &mut [u8],
) -> Result<usize, RenderVecFault>
    ensures { PrintsInto model text.now args.now out.old out.new result }
{
    let cap = out.len();
    let (front, _) = out.split_at_mut(cap.saturating_sub(1));
    let len = match render_into(model, text, args, front) {
        Ok(len) => len,
        Err(fault) => return Err(fault),
    };
    if len < cap {
        out[len] = 0;
    }
    Ok(len)
}

// Leaves there what is wrong with the arguments, and gives its code.
fn put_argument_error(error: &mut CError, kind: u32, at: u64) -> i64
    ensures { IsArgumentError kind at result error.new }
{
    *error = CError { at, kind, side: 0 };
    -i64::from(kind)
}

//! What a format prints, as a vector of bytes.
ghost use Rattle.std.specs.Prelude.{◌≡◌, MatchResult};
ghost use Rattle.pf_render.specs.Rendering.{FaultForRenderVec, Renders, memory_fault};

use crate::faults::{RenderFault, RenderVecFault};
use crate::formats::render;
use pf_values::{Arg, Counted, Model};
use std::alloc::{Allocator, Global};

/// Returns the bytes that a format prints for arguments of its types in this data model (C11
/// 7.21.6.1). `Err` if the format is rejected, if the arguments are not those that it takes, or if
/// memory is refused.
pub fn render_vec(
    alloc: Global,
    model: Model,
    text: &[u8],
    args: &[Arg<'_>],
) -> Result<Vec<u8>, RenderVecFault>
    ensures { MatchResult result (λ bytes. Renders model text.now args.now bytes.items)
        (FaultForRenderVec model text.now args.now) }
{
    render_vec_in(alloc, model, text, args)
}

fn render_vec_in<A: Allocator>(
    alloc: A,
    model: Model,
    text: &[u8],
    args: &[Arg<'_>],
) -> Result<Vec<u8, A>, RenderVecFault>
    ensures { MatchResult result (λ bytes. Renders model text.now args.now bytes.items)
        (FaultForRenderVec model text.now args.now) }
{
    let mut writer = Counted::new(Vec::new(alloc));
    match render(model, text, args, &mut writer) {
        Ok(()) => Ok(writer.into_inner()),
        Err(fault) => Err(memory_fault(fault)),
    }
}

/// The fault of a call that renders into memory: a vector fails only if an allocation does.
pub(crate) fn memory_fault(fault: RenderFault) -> RenderVecFault
    ensures { result ≡ memory_fault fault }
{
    match fault {
        RenderFault::Refused(refusal) => RenderVecFault::Refused(refusal),
        RenderFault::WrongCount { wanted, given } => RenderVecFault::WrongCount { wanted, given },
        RenderFault::WrongType(index) => RenderVecFault::WrongType(index),
        RenderFault::Write(_) => RenderVecFault::Memory,
    }
}

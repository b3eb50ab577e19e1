//! Reading the argument types of a format.
ghost use Rattle.std.specs.Prelude.{◌≡◌, ◌≤◌, [], MatchResult};
ghost use Rattle.pf_text.specs.Signatures.{TakesTypes, FaultForSignature, types_of};

use crate::pieces::Pieces;
use crate::refusals::TextFault;
use crate::signatures::Signature;
use pf_values::{ArgType, Model};
use smallvec::SmallVec;
use std::alloc::{Allocator, Global};

/// Returns the types of the arguments that a format takes in this data model. `Err` if the format
/// is rejected, or if out of memory, which may happen only if there are more than eight of them.
pub fn signature(alloc: Global, model: Model, text: &[u8]) -> Result<Signature, TextFault>
    ensures { MatchResult result (λ signature. TakesTypes model text.now (types_of signature))
        (FaultForSignature model text.now) }
{
    let mut found = SmallVec::new(alloc);
    match push_types(&mut found, model, text) {
        Ok(()) => Ok(Signature { types: found }),
        Err(fault) => Err(fault),
    }
}

fn push_types<A: Allocator + Copy>(
    found: &mut SmallVec<ArgType, 8, A>,
    model: Model,
    text: &[u8],
) -> Result<(), TextFault>
    requires none { found.old.items ≡ [] }
    requires room { 8 ≤ found.old.capacity }
    ensures { MatchResult result
        (λ _. TakesTypes model text.now found.new.items) (FaultForSignature model text.now) }
{
    for piece in Pieces::new(text) {
        let piece = match piece {
            Ok(piece) => piece,
            Err(refusal) => return Err(TextFault::Refused(refusal)),
        };
        if let Some(arg_type) = piece.arg_type(model) {
            if found.push(arg_type).is_err() {
                return Err(TextFault::Memory);
            }
        }
    }
    Ok(())
}

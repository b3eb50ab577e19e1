//! Laws. The first three are over the definitions alone: a text has one list of items, or one
//! refusal, and a spelling is read back. Each is the contract of a function that does nothing. The
//! others are about whole runs of `Pieces` and of `Scanner`, and their functions make such a run.
ghost use Rattle.std.specs.Prelude.{◌≡◌, ◌≤◌, ℕ, List, flat_map, IfOk};
ghost use Rattle.pf_values.specs.RefusalKinds.{number};
ghost use Rattle.pf_values.specs.declared.refusals.RefusalKind.{RefusalKind};
ghost use Rattle.pf_values.specs.meaning.Defined.{IsDefined};
ghost use Rattle.pf_values.specs.meaning.Items.{Item, Reads};
ghost use Rattle.pf_values.specs.meaning.Refusals.{IsRefusedAt};
ghost use Rattle.pf_values.specs.meaning.Specification.{Specification};
ghost use Rattle.pf_values.specs.meaning.Spelling.{Spells, spelling_of};
ghost use Rattle.pf_values.specs.meaning.Text.{Text};
ghost use Rattle.pf_text.specs.PieceHistory.{items_of};
ghost use Rattle.pf_text.specs.WholeRuns.{HasRun, ended_by};

use crate::pieces::{Piece, Pieces};
use crate::refusals::Refusal;
use crate::scanner::{Scanner, Step};
use std::alloc::{AllocError, Global};

/// Proves that a text has at most one list of items.
pub fn reads_once()
    ensures { (t : Text) (items others : List Item) → Reads t items → Reads t others
        → items ≡ others }
{}

/// Proves that a text is rejected for one reason and at one offset.
pub fn refused_once()
    ensures { (t : Text) (kind other : RefusalKind) (p q : ℕ) → IsRefusedAt t kind p
        → IsRefusedAt t other q → (kind ≡ other) × (p ≡ q) }
{}

/// Proves that the profile rejects no text for a kind with a number above 18.
pub fn kinds_of_refusals()
    ensures { (t : Text) (kind : RefusalKind) (at : ℕ) → IsRefusedAt t kind at → number kind ≤ 18 }
{}

/// Proves that the spelling of a defined specification is read back as that specification.
pub fn spelled_is_read()
    ensures { (s : Specification) → IsDefined s → Spells (spelling_of s) s }
{}

/// Proves that repeated calls of `next` give the pieces of the items of the text, in order, and then
/// `None`, if it is accepted. Otherwise they give those before the item in which it is rejected, and then
/// the refusal. It returns the pieces, and how they end. `Err` if memory is refused.
pub fn whole_run_of_pieces<'a>(
    alloc: Global,
    text: &'a [u8],
) -> Result<(Vec<Piece<'a>>, Result<(), Refusal>), AllocError>
    ensures { IfOk result (λ run. HasRun text.now (flat_map items_of run.0.items) run.1) }
{
    let mut given = Vec::new(alloc);
    for piece in Pieces::new(text) {
        match piece {
            Ok(piece) => {
                if given.push(piece).is_err() {
                    return Err(AllocError);
                }
            }
            Err(refusal) => return Ok((given, Err(refusal))),
        }
    }
    Ok((given, Ok(())))
}

/// Proves that calls of `feed` for the bytes of a text, in order, and then one of `finish` return steps
/// that end the items of the text, in order, if it is accepted. Otherwise these end the items before
/// the one in which it is rejected, and the refusal follows. It returns the steps, and how they end.
/// `Err` if memory is refused.
pub fn whole_run_of_steps(
    alloc: Global,
    text: &[u8],
) -> Result<(Vec<Step>, Result<(), Refusal>), AllocError>
    ensures { IfOk result (λ run. HasRun text.now (flat_map ended_by run.0.items) run.1) }
{
    let mut scanner = Scanner::new();
    let mut made = Vec::new(alloc);
    for byte in text {
        match scanner.feed(*byte) {
            Ok(step) => made.push(step)?,
            Err(refusal) => return Ok((made, Err(refusal))),
        }
    }
    Ok((made, scanner.finish()))
}

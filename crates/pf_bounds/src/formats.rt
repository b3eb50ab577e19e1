//! How many bytes a format prints at least and at most.
ghost use Rattle.std.specs.Prelude.{MatchResult, length};
ghost use Rattle.pf_values.specs.meaning.Refusals.{IsRefusedAt};
ghost use Rattle.pf_text.specs.PieceHistory.{items_of};
ghost use Rattle.pf_bounds.specs.Bounds.{AreBounds, AreBoundsOf, AreWithin, CanPrintAll};
ghost use Rattle.pf_bounds.specs.FieldLengths.{limit_of};

use crate::directives::directive_bounds;
use crate::known_bounds::known_bounds;
use crate::sums::Bounds;
use pf_text::{Piece, Pieces, Refusal};
use pf_values::Model;

/// Returns the smallest and the largest number of bytes that a format prints in this data model,
/// over all arguments of its types (C11 7.21.6.1). `Err` if the format is rejected. Allocates
/// nothing.
pub fn bounds(model: Model, text: &[u8]) -> Result<Bounds, Refusal>
    ensures { MatchResult result (λ b. AreBounds model text.now b.least b.greatest)
        (λ refusal. IsRefusedAt text.now refusal.kind refusal.at) }
{
    match known_bounds(model, text) {
        Some(tally) => Ok(tally.bounds()),
        None => bounds_by_pieces(model, text),
    }
}

// `bounds` of any text, also of one that is rejected. Never inlined, since it is rare.
#[inline(never)]
fn bounds_by_pieces(model: Model, text: &[u8]) -> Result<Bounds, Refusal>
    ensures { MatchResult result (λ b. AreBounds model text.now b.least b.greatest)
        (λ refusal. IsRefusedAt text.now refusal.kind refusal.at) }
{
    let mut sum = Bounds::exactly(0);
    for piece in Pieces::new(text) {
        match piece {
            Ok(piece) => sum = sum.plus(piece_bounds(model, &piece)),
            Err(refusal) => return Err(refusal),
        }
    }
    Ok(sum)
}

// The numbers of bytes that a piece prints.
fn piece_bounds(model: Model, piece: &Piece<'_>) -> Bounds
    ensures value { AreBoundsOf (CanPrintAll model (items_of piece.now)) result.least result.greatest }
    ensures few { AreWithin result.least result.greatest (limit_of (length (items_of piece.now))) }
{
    match piece {
        Piece::Literal(run) => Bounds::exactly(run.len() as u128),
        Piece::Percent => Bounds::exactly(1),
        Piece::Directive(directive) => directive_bounds(model, directive),
    }
}

//! Where the argument types of two formats differ first; whether two directives have the same parts.
ghost use Rattle.std.specs.Prelude.{◌≡◌, ◌≢◌, ◌∷◌, [], ◌++◌, IsFalse, IsTrue, List, MatchBool, MatchOption, Some};
ghost use Rattle.pf_values.specs.declared.types.ArgType.{ArgType};
ghost use Rattle.pf_values.specs.meaning.Items.{IsAccepted, Item, Reads, types};
ghost use Rattle.pf_values.specs.meaning.Text.{Text};
ghost use Rattle.pf_text.specs.Signatures.{TakesTypes};
ghost use Rattle.pf_render.specs.Rendering.{DifferFirstAt};
ghost use Rattle.pf_compare.specs.TypeLists.{HasGivenTypes};

use pf_text::Pieces;
use pf_values::{ArgType, Conv, Directive, Flag, FlagSet, Length, Model};

/// Returns the first index at which the argument types of two accepted formats differ, or `None` if
/// they are equal. Allocates nothing.
pub(crate) fn first_type_difference(model: Model, first: &[u8], second: &[u8]) -> Option<u64>
    requires first { IsAccepted first.now }
    requires second { IsAccepted second.now }
    ensures { (xs ys : List Item) → Reads first.now xs → Reads second.now ys
        → MatchOption result (types model xs ≡ types model ys)
        (DifferFirstAt (types model xs) (types model ys)) }
{
    let mut index = 0;
    let mut second_pieces = Pieces::new(second);
    for piece in Pieces::new(first) {
        match piece {
            Ok(piece) => {
                if let Some(wanted) = piece.arg_type(model) {
                    if !is_type(next_type(model, &mut second_pieces), wanted) {
                        return Some(index);
                    }
                    index += 1;
                }
            }
            Err(_) => unreachable!(),
        }
    }
    match next_type(model, &mut second_pieces) {
        Some(_) => Some(index),
        None => None,
    }
}

// The type of the next argument of an accepted format, if one comes.
fn next_type(model: Model, pieces: &mut Pieces<'_>) -> Option<ArgType>
    ensures { (t : Text) (done : List ArgType) → IsAccepted t → HasGivenTypes model pieces.old t done
        → MatchOption result (TakesTypes model t done)
        (λ next. HasGivenTypes model pieces.new t (done ++ next ∷ [])) }
{
    while let Some(piece) = pieces.next() {
        if let Ok(piece) = piece {
            if let Some(next) = piece.arg_type(model) {
                return Some(next);
            }
        }
    }
    None
}

fn is_type(given: Option<ArgType>, wanted: ArgType) -> bool
    ensures yes { IsTrue result → given ≡ Some wanted }
    ensures other { IsFalse result → given ≢ Some wanted }
{
    match given {
        Some(given) => given == wanted,
        None => false,
    }
}

/// Whether two directives have the same parts.
pub(crate) fn are_equal(first: &Directive, second: &Directive) -> bool
    ensures yes { IsTrue result → first.now ≡ second.now }
    ensures other { IsFalse result → first.now ≢ second.now }
{
    same_flags(first.flags(), second.flags())
        && same_number(first.width(), second.width())
        && same_number(first.precision(), second.precision())
        && same_length(first.length(), second.length())
        && same_conv(first.conv(), second.conv())
}

fn same_flags(first: FlagSet, second: FlagSet) -> bool
    ensures yes { IsTrue result → first ≡ second }
    ensures other { IsFalse result → first ≢ second }
{
    first.has(Flag::Minus) == second.has(Flag::Minus)
        && first.has(Flag::Plus) == second.has(Flag::Plus)
        && first.has(Flag::Space) == second.has(Flag::Space)
        && first.has(Flag::Alt) == second.has(Flag::Alt)
        && first.has(Flag::Zero) == second.has(Flag::Zero)
        && first.has(Flag::Group) == second.has(Flag::Group)
}

fn same_number(first: Option<u16>, second: Option<u16>) -> bool
    ensures yes { IsTrue result → first ≡ second }
    ensures other { IsFalse result → first ≢ second }
{
    first == second
}

pub(crate) fn same_length(first: Length, second: Length) -> bool
    ensures yes { IsTrue result → first ≡ second }
    ensures other { IsFalse result → first ≢ second }
{
    first == second
}

pub(crate) fn same_conv(first: Conv, second: Conv) -> bool
    ensures yes { IsTrue result → first ≡ second }
    ensures other { IsFalse result → first ≢ second }
{
    first == second
}

/// Whether two texts differ.
pub(crate) fn are_unlike(first: &[u8], second: &[u8]) -> bool
    ensures { MatchBool result (first.now ≢ second.now) (first.now ≡ second.now) }
{
    first != second
}

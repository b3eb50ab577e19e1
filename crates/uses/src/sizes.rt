//! How large a buffer a format needs, and how much it prints at least.
ghost use Rattle.std.specs.Prelude.{◌<◌, ◌≤◌, IfSome, IsTrue, List, length};
ghost use Rattle.pf_values.specs.meaning.Arguments.{Argument, HasTypes};
ghost use Rattle.pf_values.specs.meaning.Items.{HasItems, Item, types};
ghost use Rattle.pf_values.specs.meaning.Printing.{PrintsAll};
ghost use Rattle.pf_values.specs.meaning.Text.{Text};
ghost use Rattle.pf_bounds.specs.Bounds.{AreBounds};

use pf_bounds::laws::{equivalent_bounds, printed_between};
use pf_bounds::{Bounds, bounds};
use pf_canon::same_text;
use pf_values::Model;

/// Returns whether all that a format prints, with a NUL after it, fits in a buffer of this size. False for
/// a rejected format.
pub fn fits_in(model: Model, format: &[u8], size: u128) -> bool
    ensures { IsTrue result → (items : List Item) (args : List Argument) (out : Text)
        → HasItems format.now items → HasTypes model args (types model items)
        → PrintsAll model items args out → length out < size }
{
    printed_between();
    match bounds(model, format) {
        Ok(found) => match found.greatest {
            Some(greatest) => greatest < size,
            None => false,
        },
        Err(_) => false,
    }
}

/// Returns whether a format prints at least this many bytes, whatever its arguments are. False for a rejected
/// format.
pub fn prints_at_least(model: Model, format: &[u8], count: u128) -> bool
    ensures { IsTrue result → (items : List Item) (args : List Argument) (out : Text)
        → HasItems format.now items → HasTypes model args (types model items)
        → PrintsAll model items args out → count ≤ length out }
{
    printed_between();
    match bounds(model, format) {
        Ok(found) => count <= found.least,
        Err(_) => false,
    }
}

/// Returns how many bytes the second of two formats prints, as the first says, if they are equivalent. `None` if
/// they are not, or one is rejected.
pub fn bounds_by_first(model: Model, first: &[u8], second: &[u8]) -> Option<Bounds>
    ensures { IfSome result (λ found. AreBounds model second.now found.least found.greatest) }
{
    equivalent_bounds();
    let Ok(same) = same_text(model, first, second) else {
        return None;
    };
    if !same {
        return None;
    }
    match bounds(model, first) {
        Ok(found) => Some(found),
        Err(_) => None,
    }
}

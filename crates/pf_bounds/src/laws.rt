//! Laws of the definitions: a text has one pair of bounds, within which is what it prints; texts one
//! after another have the sums; equivalent texts have the same.
ghost use Rattle.std.specs.Prelude.{◌≡◌, ℕ, ◌+◌, ◌++◌, ◌≤◌, length, List, Option};
ghost use Rattle.pf_values.specs.declared.limits.TheConstants.{MAX_TEXT_LEN};
ghost use Rattle.pf_values.specs.declared.models.Model.{Model};
ghost use Rattle.pf_values.specs.meaning.Arguments.{Argument, HasTypes};
ghost use Rattle.pf_values.specs.meaning.Items.{HasItems, IsAccepted, Item, types};
ghost use Rattle.pf_values.specs.meaning.Printing.{AreEquivalent, PrintsAll};
ghost use Rattle.pf_values.specs.meaning.Text.{Text};
ghost use Rattle.pf_bounds.specs.Bounds.{AreBounds, IsBetween, sum_of};

/// Proves that a text has one smallest and one largest number of bytes, or no largest.
pub fn bounds_once()
    ensures { (model : Model) (t : Text) (least fewer : ℕ) (greatest more : Option ℕ)
        → AreBounds model t least greatest → AreBounds model t fewer more
        → (least ≡ fewer) × (greatest ≡ more) }
{}

/// Proves that the bytes that a text prints for arguments of its types lie between its two bounds.
pub fn printed_between()
    ensures { (model : Model) (t out : Text) (least : ℕ) (greatest : Option ℕ)
        (items : List Item) (args : List Argument) → AreBounds model t least greatest
        → HasItems t items → HasTypes model args (types model items) → PrintsAll model items args out
        → IsBetween least greatest (length out) }
{}

/// Proves that two texts one after another print the sums.
pub fn bounds_of_both()
    ensures { (model : Model) (t u : Text) (least fewer : ℕ) (greatest more : Option ℕ)
        → AreBounds model t least greatest → AreBounds model u fewer more
        → length (t ++ u) ≤ MAX_TEXT_LEN
        → AreBounds model (t ++ u) (least + fewer) (sum_of greatest more) }
{}

/// Proves that equivalent texts have the same bounds.
pub fn equivalent_bounds()
    ensures { (model : Model) (t u : Text) (least : ℕ) (greatest : Option ℕ)
        → AreEquivalent model t u → IsAccepted u → AreBounds model t least greatest
        → AreBounds model u least greatest }
{}

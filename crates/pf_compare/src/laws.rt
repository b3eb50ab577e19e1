//! The headline, and what it says of one format. Each law is about the definitions alone, holds in
//! each data model, and is the contract of a function that does nothing.
ghost use Rattle.std.specs.Prelude.{◌≡◌, ◌↔◌};
ghost use Rattle.pf_values.specs.declared.models.Model.{Model};
ghost use Rattle.pf_values.specs.meaning.Headline.{HasOneCanonical, HaveOneMeaning};
ghost use Rattle.pf_values.specs.meaning.Items.{IsAccepted};
ghost use Rattle.pf_values.specs.meaning.Printing.{AreEquivalent};
ghost use Rattle.pf_values.specs.meaning.Text.{Text};
ghost use Rattle.pf_compare.specs.Answers.{AreOneDifference, AreOneVerdict, IsComparisonOf, IsDifferenceOf};
ghost use Rattle.pf_compare.specs.declared.comparisons.Comparison.{Comparison};
ghost use Rattle.pf_compare.specs.declared.comparisons.Difference.{Difference};

/// Proves that each accepted format has exactly one canonical text, which has its types, prints its
/// bytes, and is its own canonical text.
pub fn one_canonical_text()
    ensures { (model : Model) (t : Text) → IsAccepted t → HasOneCanonical model t }
{}

/// Proves the headline. Two accepted formats have equal argument types and print equal bytes for
/// every list of such arguments if and only if their canonical texts are equal byte for byte. Each
/// has exactly one, which has its types, prints its bytes, and is its own canonical text.
pub fn headline()
    ensures { (model : Model) (t u : Text) → IsAccepted t → IsAccepted u → HaveOneMeaning model t u }
{}

/// Proves that there is a function of accepted formats such that each is equivalent to what it gives, and two are
/// equivalent if and only if it gives the same text for both. `headline` says which function this is. Whoever only
/// asks which formats are equivalent needn't know what a canonical text is.
pub fn sameness()
    ensures { (model : Model) → (canonical : (t : Text) → IsAccepted t → Text)
        × ((t : Text) (h : IsAccepted t) → AreEquivalent model t (canonical t h))
        × ((t u : Text) (h : IsAccepted t) (g : IsAccepted u)
        → (AreEquivalent model t u ↔ (canonical t h ≡ canonical u g))) }
{}

/// Proves that two texts have one comparison: what `compare` answers if it compares them is determined.
pub fn one_comparison()
    ensures { (model : Model) (t u : Text) (comparison other : Comparison) → IsComparisonOf model t u comparison
        → IsComparisonOf model t u other
        → AreOneVerdict comparison.verdict other.verdict × (comparison.renderings ≡ other.renderings) }
{}

/// Proves that two texts have one difference: what `first_difference` finds is determined.
pub fn one_difference()
    ensures { (model : Model) (t u : Text) (difference other : Difference) → IsDifferenceOf model t u difference
        → IsDifferenceOf model t u other → AreOneDifference difference other }
{}

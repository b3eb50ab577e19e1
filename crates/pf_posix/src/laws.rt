//! Laws of the definitions: a text has one list of argument types, or is rejected for one reason and
//! at one offset.
ghost use Rattle.std.specs.Prelude.{◌≡◌, ◌≢◌, false, ◌++◌, ◌<◌, ℕ, List, None, Option, length, map};
ghost use Rattle.pf_values.specs.declared.models.Model.{Model};
ghost use Rattle.pf_values.specs.meaning.Items.{HasItems, IsAccepted, Item, types};
ghost use Rattle.pf_values.specs.meaning.Printing.{AreEquivalent};
ghost use Rattle.pf_values.specs.Laws.{HasEachOnce};
ghost use Rattle.pf_values.specs.meaning.Text.{Text};
ghost use Rattle.pf_values.specs.RefusalKinds.{is_profile_alone};
ghost use Rattle.pf_values.specs.declared.refusals.RefusalKind.{RefusalKind};
ghost use Rattle.pf_values.specs.declared.refusals.RefusalKind.TheVariants.{Numbered};
ghost use Rattle.pf_posix.specs.declared.types.WholeArgType.{WholeArgType};
ghost use Rattle.pf_posix.specs.declared.types.TheConstants.WholeArgType.{ALL as every_type};
ghost use Rattle.pf_posix.specs.declared.directive_spans.DirectiveSpan.{DirectiveSpan};
ghost use Rattle.pf_posix.specs.Directives.{HasDirectives};
ghost use Rattle.pf_posix.specs.Items.{HasArguments};
ghost use Rattle.pf_posix.specs.Laws.{ComparesArgumentTypes, ComparesBeginning, HasNoPartOfErrno, IsAcceptedOrRefused, IsWithoutErrno};
ghost use Rattle.pf_posix.specs.Refusals.{IsWholeRefusedAt};
ghost use Rattle.pf_posix.specs.Types.{widened};
ghost use Rattle.pf_posix.specs.Unnumbered.{AcceptsUnnumbered, IsJudged, IsReadOnce, IsUnnumberedRefusedAt, TypesAreKept};

/// Proves that a text is accepted, or rejected.
pub fn accepted_or_refused()
    ensures { (model : Model) (t : Text) → IsAcceptedOrRefused model t }
{}

/// Proves that no text is both accepted and rejected.
pub fn never_both()
    ensures { (model : Model) (t : Text) (types : List WholeArgType)
        (kind : RefusalKind) (at : ℕ) → HasArguments model t types
        → IsWholeRefusedAt model t kind at → ⊥ }
{}

/// Proves that an accepted text has one list of types.
pub fn types_once()
    ensures { (model : Model) (t : Text) (types others : List WholeArgType)
        → HasArguments model t types → HasArguments model t others → types ≡ others }
{}

/// Proves that an accepted text has one list of conversion specifications.
pub fn directives_once()
    ensures { (model : Model) (t : Text) (directives others : List DirectiveSpan)
        → HasDirectives model t directives → HasDirectives model t others → directives ≡ others }
{}

/// Proves that a text is rejected for one reason at one offset.
pub fn refused_once()
    ensures { (model : Model) (t : Text) (kind other : RefusalKind) (p q : ℕ)
        → IsWholeRefusedAt model t kind p → IsWholeRefusedAt model t other q → (kind ≡ other) × (p ≡ q) }
{}

/// Proves that a text that is rejected before its end is rejected so whatever bytes follow.
pub fn refused_for_good()
    ensures { (model : Model) (t more : Text) (kind : RefusalKind) (at : ℕ)
        → IsWholeRefusedAt model t kind at → at < length t → IsWholeRefusedAt model (t ++ more) kind at }
{}

/// Proves that a text that the profile accepts is accepted here, with the same types.
pub fn profile_types()
    ensures { (model : Model) (t : Text) (items : List Item) → HasItems t items
        → HasArguments model t (map widened (types model items)) }
{}

/// Proves that two texts of the profile that are equivalent take the same arguments here.
pub fn same_fits()
    ensures { (model : Model) (t u : Text) → IsAccepted t → IsAccepted u
        → AreEquivalent model t u → ComparesArgumentTypes model t u None }
{}

/// Proves that a text that takes just the arguments of another takes no others.
pub fn fits_is_fewer()
    ensures { (model : Model) (t u : Text) → ComparesArgumentTypes model t u None
        → ComparesBeginning model t u None }
{}

/// Proves that if each of two texts takes no other arguments than the other, they take the same
/// ones.
pub fn fewer_both_ways()
    ensures { (model : Model) (t u : Text) → ComparesBeginning model t u None
        → ComparesBeginning model u t None → ComparesArgumentTypes model t u None }
{}

/// Proves that there is one index at most where a text takes an argument that another doesn't take.
pub fn fewer_once()
    ensures { (model : Model) (t u : Text) (index other : Option ℕ)
        → ComparesBeginning model t u index → ComparesBeginning model t u other → index ≡ other }
{}

/// Proves that the types of two texts differ first at one index, or nowhere.
pub fn compares_once()
    ensures { (model : Model) (t u : Text) (index other : Option ℕ)
        → ComparesArgumentTypes model t u index → ComparesArgumentTypes model t u other → index ≡ other }
{}

/// Proves that a text is read as one list of stretches and opaque directives at most.
pub fn read_once()
    ensures { (t : Text) → IsReadOnce t }
{}

/// Proves that a text is accepted as stretches and opaque directives if and only if it is read with
/// no numbered specification, and it is within the limit.
pub fn accepts_unnumbered()
    ensures { (t : Text) → AcceptsUnnumbered t }
{}

/// Proves that the item `%m` makes no difference to a text without these two bytes: what it is read as and why
/// it is rejected is as the standards' items alone say.
pub fn errno_aside()
    ensures { (t : Text) → IsWithoutErrno t → HasNoPartOfErrno t }
{}

/// Proves that a text accepted in this way has arguments of the types of its stretches and opaque
/// directives.
pub fn types_are_kept()
    ensures { (model : Model) → TypesAreKept model }
{}

/// Proves that, if arguments may have no numbers, a text is accepted or rejected, and never both.
pub fn judged_unnumbered()
    ensures { (model : Model) (t : Text) → IsJudged model t }
{}

/// Proves that, if arguments may have no numbers, a text is rejected for one reason at one offset.
pub fn refused_unnumbered_once()
    ensures { (model : Model) (t : Text) (kind other : RefusalKind) (p q : ℕ)
        → IsUnnumberedRefusedAt model t kind p → IsUnnumberedRefusedAt model t other q
        → (kind ≡ other) × (p ≡ q) }
{}

/// Proves that no text is rejected for what the profile alone lacks; nor for the number of an
/// argument, if arguments may have numbers.
pub fn kinds_of_refusals()
    ensures numbered { (model : Model) (t : Text) (kind : RefusalKind) (at : ℕ)
        → IsWholeRefusedAt model t kind at → (is_profile_alone kind ≡ false) × (kind ≢ Numbered) }
    ensures unnumbered { (model : Model) (t : Text) (kind : RefusalKind) (at : ℕ)
        → IsUnnumberedRefusedAt model t kind at → is_profile_alone kind ≡ false }
{}

/// Proves that `WholeArgType::ALL` has each type exactly once.
pub fn table_has_each_once()
    ensures { HasEachOnce every_type }
{}

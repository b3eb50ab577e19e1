//! Laws over the definitions: each is the contract of a function that does nothing.
ghost use Rattle.std.specs.Prelude.{◌≡◌};
ghost use Rattle.pf_values.specs.declared.models.Model.{Model};
ghost use Rattle.pf_posix.specs.Specifications.{WholeSpecification};
ghost use Rattle.pf_values.specs.meaning.Text.{Text};
ghost use Rattle.pf_whole.specs.Answers.{AgreeingIsTogether, CallsGiveShape, IsWholeCanonicalFor, OneVerdict, TellingIsApart};
ghost use Rattle.pf_whole.specs.Needless.{AreNeedless};
ghost use Rattle.pf_whole.specs.declared.needless.NeedlessParts.{NeedlessParts};
ghost use Rattle.pf_whole.specs.meaning.WholeHeadline.{WholeHeadline};
ghost use Rattle.pf_whole.specs.Laws.{AlikeCallTheSame, AlikeIsCorresponding, CanonicalIsAlike, AlikeHaveOneCanonical, OneCanonicalIsAlike, ProfileCoincides, ProfileCompares, AlikePrintAlike, AlikeShareErrno, ServeFewer, TracesOnce, TracesSuffice};

/// Proves that stretches and what is between them have exactly one trace for each list of arguments of
/// their types.
pub fn traces_once()
    ensures { (model : Model) → TracesOnce model }
{}

/// Proves that alike texts print the same under every function that gives a text for what was
/// printed before and a call.
pub fn alike_print_alike()
    ensures { (model : Model) → AlikePrintAlike model }
{}

/// Proves that two texts of the profile are alike if and only if they are equivalent, and their
/// canonical texts here are those of the profile.
pub fn profile_coincides()
    ensures { (model : Model) → ProfileCoincides model }
{}

/// Proves that texts with the same canonical text are alike.
pub fn one_canonical_is_alike()
    ensures { (model : Model) → OneCanonicalIsAlike model }
{}

/// Proves that canonical texts of alike texts are equal.
pub fn alike_have_one_canonical()
    ensures { (model : Model) → AlikeHaveOneCanonical model }
{}

/// Proves that a canonical text of a text is alike to it, and is its own canonical text.
pub fn canonical_is_alike()
    ensures { (model : Model) → CanonicalIsAlike model }
{}

/// Proves the headline of the whole language. Each accepted text has exactly one canonical text, which
/// is alike to it, and is its own canonical text. Two accepted texts are alike if and only if their
/// canonical texts are equal byte for byte.
pub fn headline()
    ensures { (model : Model) → WholeHeadline model }
{}

/// Proves that a text has one canonical text that `canonical` may answer.
pub fn one_whole_canonical()
    ensures { (model : Model) (t c d : Text) → IsWholeCanonicalFor model t c → IsWholeCanonicalFor model t d → c ≡ d }
{}

/// Proves that two texts are alike if and only if, side by side, their stretches print alike, and
/// the directives and `%m` between them have the same normal spelling.
pub fn alike_is_corresponding()
    ensures { (model : Model) → AlikeIsCorresponding model }
{}

/// Proves that alike texts have the same calls, each with the same first argument.
pub fn alike_call_the_same()
    ensures { (model : Model) → AlikeCallTheSame model }
{}

/// Proves that two texts without `%m` are alike if they take arguments of the same types, and have the
/// same traces: their calls are in the same places then.
pub fn traces_suffice()
    ensures { (model : Model) → TracesSuffice model }
{}

/// Proves that of alike texts, both have `%m` or neither. So the canonical text of a format without `%m` has
/// none.
pub fn alike_share_errno()
    ensures { (model : Model) → AlikeShareErrno model }
{}

/// Proves that arguments for a text serve one whose types are a beginning of its own: those that it
/// takes are there, and of its types (C11 7.21.6.1, paragraph 2). So where `fits_fewer` finds no
/// difference, nothing is read that was not passed.
pub fn serve_fewer()
    ensures { (model : Model) → ServeFewer model }
{}

/// Proves that two formats of the profile compare in the whole language as they do in the profile, with the same
/// arguments, and in no other way. So `same --whole` says of them what `same` says.
pub fn profile_compares()
    ensures { (model : Model) → ProfileCompares model }
{}

/// Proves that two texts have at most one verdict. So `compare` can return no other one.
pub fn one_verdict()
    ensures { (model : Model) → OneVerdict model }
{}

/// Proves that if two texts have equal types and equal calls, then, side by side, their stretches
/// have equal types and their opaque directives have the same normal spelling.
pub fn calls_give_shape()
    ensures { (model : Model) → CallsGiveShape model }
{}

/// Proves that arguments for which one stretch prints other bytes tell the traces apart, whatever
/// the arguments of opaque directives and of other stretches are.
pub fn telling_is_apart()
    ensures { (model : Model) → TellingIsApart model }
{}

/// Proves that if each stretch prints the same bytes for the arguments shown, the traces are the
/// same, whatever the arguments of opaque directives are.
pub fn agreeing_is_together()
    ensures { (model : Model) → AgreeingIsTogether model }
{}

/// Proves that a specification has one answer that `AreNeedless` allows.
pub fn needless_once()
    ensures { (model : Model) (s : WholeSpecification) (found other : NeedlessParts) → AreNeedless model s found
        → AreNeedless model s other → found ≡ other }
{}

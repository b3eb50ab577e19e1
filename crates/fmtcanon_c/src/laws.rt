//! Laws on the numbers that C programs see, and that calls have one answer. Each is the contract of a function that does nothing.
ghost use Rattle.std.specs.Prelude.{◌≡◌, ℤ, List};
ghost use Rattle.pf_values.specs.declared.models.Model.{Model};
ghost use Rattle.pf_values.specs.meaning.Text.{Text};
ghost use Rattle.pf_posix.specs.declared.specification_spans.SpecificationSpan.{SpecificationSpan};
ghost use Rattle.fmtcanon_c.specs.declared.byte_counts.CBounds.{CBounds};
ghost use Rattle.fmtcanon_c.specs.declared.directives.CDirective.{CDirective};
ghost use Rattle.fmtcanon_c.specs.declared.interface.CError.{CError};
ghost use Rattle.fmtcanon_c.specs.declared.relations.Relation.{Relation};
ghost use Rattle.fmtcanon_c.specs.declared.specifications.CSpecification.{CSpecification};
ghost use Rattle.fmtcanon_c.specs.ByteCounts.{PutsBounds};
ghost use Rattle.fmtcanon_c.specs.Calls.{AnswersCanonical, AreOneAnswer, Checks, PutsArguments, PutsCanonical, PutsDirectives, PutsTypes, PutsWholeCanonical};
ghost use Rattle.fmtcanon_c.specs.Header.{AreErrorsOfHeader, HasNumberOfHeader, HasBitOfHeader, IsArgumentOfHeader, IsMostOfHeader, IsNoneOfHeader, IsUnboundedOfHeader};
ghost use Rattle.fmtcanon_c.specs.Relations.{AnswersRelation, OneIsFit};
ghost use Rattle.fmtcanon_c.specs.Specifications.{IsRecordOf};
ghost use Rattle.pf_literals.specs.declared.faults.LiteralKind.{LiteralKind};
ghost use Rattle.pf_whole.specs.declared.parts.Part.{Part};

/// Proves that the codes that are not refusals have the numbers of the header.
pub fn errors_of_header()
    ensures { AreErrorsOfHeader }
{}

/// Proves that each kind of faults of literals has its number of the header.
pub fn literal_kinds_of_header()
    ensures { (kind : LiteralKind) → HasNumberOfHeader kind }
{}

/// Proves that the index that means "no argument" is the header's.
pub fn no_argument_of_header()
    ensures { IsArgumentOfHeader }
{}

/// Proves that each part of a specification has its bit of the header.
pub fn parts_of_header()
    ensures { (part : Part) → HasBitOfHeader part }
{}

/// Proves that the number that means "no number, or no offset" is the header's.
pub fn none_of_header()
    ensures { IsNoneOfHeader }
{}

/// Proves that the number that means "no largest number of bytes" is the header's.
pub fn unbounded_of_header()
    ensures { IsUnboundedOfHeader }
{}

/// Proves that the largest number of bytes that is put is the header's, one less than that number.
pub fn most_of_header()
    ensures { IsMostOfHeader }
{}

/// Proves that the answer of `fmtcanon_fits_fewer` is 1 if and only if the second format takes the arguments of
/// the first, or those at their beginning. By that, `fmtcanon_fmtcheck` of the header chooses.
pub fn one_is_fit()
    ensures { OneIsFit }
{}

/// Proves that `fmtcanon_check` has one answer.
pub fn one_check()
    ensures { (t : Text) (error now after : CError) (code other : ℤ) → Checks t error code now → Checks t error other after
        → (code ≡ other) × (now ≡ after) }
{}

/// Proves that `fmtcanon_is_canonical` has one answer.
pub fn one_decision()
    ensures { (model : Model) (t : Text) (error now after : CError) (code other : ℤ) → AnswersCanonical model t error code now
        → AnswersCanonical model t error other after → (code ≡ other) × (now ≡ after) }
{}

/// Proves that each call that says whether two formats are related in one data model has one answer.
pub fn one_relation()
    ensures { (relation : Relation) (model : Model) (first second : Text) (error now after : CError) (code other : ℤ)
        → AnswersRelation relation model first second error code now
        → AnswersRelation relation model first second error other after → (code ≡ other) × (now ≡ after) }
{}

/// Proves that `fmtcanon_bounds` has one answer.
pub fn one_count()
    ensures { (model : Model) (t : Text) (error now after : CError) (code other : ℤ) (bounds put_now put_after : CBounds)
        → PutsBounds model t bounds error code put_now now → PutsBounds model t bounds error other put_after after
        → (code ≡ other) × (put_now ≡ put_after) × (now ≡ after) }
{}

/// Proves that a specification has one record of `fmtcanon_specifications`.
pub fn one_record()
    ensures { (model : Model) (span : SpecificationSpan) (entry other : CSpecification) → IsRecordOf model span entry
        → IsRecordOf model span other → entry ≡ other }
{}

/// Proves that the calls that put the canonical text, the types or the directives of a format have one answer, except
/// that they may be out of memory.
pub fn puts_once()
    ensures canonical { (model : Model) (t out now after : Text) (error e f : CError) (code other : ℤ)
        → PutsCanonical model t out error code now e → PutsCanonical model t out error other after f
        → AreOneAnswer code now e other after f }
    ensures whole { (model : Model) (t out now after : Text) (error e f : CError) (code other : ℤ)
        → PutsWholeCanonical model t out error code now e → PutsWholeCanonical model t out error other after f
        → AreOneAnswer code now e other after f }
    ensures types { (model : Model) (t out now after : Text) (error e f : CError) (code other : ℤ)
        → PutsTypes model t out error code now e → PutsTypes model t out error other after f
        → AreOneAnswer code now e other after f }
    ensures arguments { (model : Model) (t out now after : Text) (error e f : CError) (code other : ℤ)
        → PutsArguments model t out error code now e → PutsArguments model t out error other after f
        → AreOneAnswer code now e other after f }
    ensures directives { (model : Model) (t : Text) (out now after : List CDirective) (error e f : CError) (code other : ℤ)
        → PutsDirectives model t out error code now e → PutsDirectives model t out error other after f
        → AreOneAnswer code now e other after f }
{}

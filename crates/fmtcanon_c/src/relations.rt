//! Whether two formats are interchangeable, and whether one takes the arguments of the other.
ghost use Rattle.std.specs.Prelude.{◌≡◌, MatchResult};
ghost use Rattle.std.specs.List.{AllByRecursion};
ghost use Rattle.pf_values.specs.declared.models.TheConstants.Model.{ALL};
ghost use Rattle.pf_whole.specs.Languages.{IsFirstIn};
ghost use Rattle.fmtcanon_c.specs.Calls.{AreModels};
ghost use Rattle.fmtcanon_c.specs.Models.{InModel};
ghost use Rattle.fmtcanon_c.specs.Relations.{AcceptsRelated, AnswersRelation, AnswersRelationModels, AreRelated, RefusesRelated, Relates, is_nowhere};
ghost use Rattle.fmtcanon_c.specs.declared.relations.Relation.TheVariants.{Fits, FitsFewer, Same, WholeSame};

use crate::interface::{CError, NO_MODEL, model_of, put_refusal};
use pf_posix::{fits, fits_fewer};
use pf_text::{Refusal, Side};
use pf_values::Model;

// How two formats may be related.
#[derive(Clone, Copy)]
enum Relation {
    // They have equal types and print equal bytes for all arguments.
    Same,
    // In the whole language: they make the same calls, too.
    WholeSame,
    // The second takes just the arguments of the first.
    Fits,
    // The second takes the arguments of the first, or those at their beginning.
    FitsFewer,
}

/// Returns 1 if two formats have equal types and print equal bytes for all arguments, 0 if not, or
/// minus the kind of the rejected one. Allocates nothing.
#[unsafe(no_mangle)]
pub extern "C" fn fmtcanon_same(model: i32, first: &[u8], second: &[u8], error: &mut CError) -> i64
    ensures { InModel model
        (λ m. AnswersRelation Same m first.now second.now error.old result error.new)
        result (error.new ≡ error.old) }
{
    are_related(Relation::Same, model, first, second, error)
}

/// Returns 1 if two formats of the whole language have equal types, print equal bytes for all arguments
/// and make the same calls, 0 if they don't, or minus the kind of the rejected one. Allocates nothing.
#[unsafe(no_mangle)]
pub extern "C" fn fmtcanon_whole_same(
    model: i32,
    first: &[u8],
    second: &[u8],
    error: &mut CError,
) -> i64
    ensures { InModel model
        (λ m. AnswersRelation WholeSame m first.now second.now error.old result error.new)
        result (error.new ≡ error.old) }
{
    are_related(Relation::WholeSame, model, first, second, error)
}

/// Returns 1 if the second format takes just the arguments of the first, 0 if not, or minus the
/// kind of the rejected one. Allocates nothing.
#[unsafe(no_mangle)]
pub extern "C" fn fmtcanon_fits(model: i32, first: &[u8], second: &[u8], error: &mut CError) -> i64
    ensures { InModel model
        (λ m. AnswersRelation Fits m first.now second.now error.old result error.new)
        result (error.new ≡ error.old) }
{
    are_related(Relation::Fits, model, first, second, error)
}

/// Returns 1 if the second format takes the arguments of the first, or those at their beginning, 0 if
/// not, or minus the kind of the rejected one. Allocates nothing.
#[unsafe(no_mangle)]
pub extern "C" fn fmtcanon_fits_fewer(
    model: i32,
    first: &[u8],
    second: &[u8],
    error: &mut CError,
) -> i64
    ensures { InModel model
        (λ m. AnswersRelation FitsFewer m first.now second.now error.old result error.new)
        result (error.new ≡ error.old) }
{
    are_related(Relation::FitsFewer, model, first, second, error)
}

/// Returns a bit mask of the data models in which two formats have equal types and print equal
/// bytes for all arguments: 1 for the first of all, 2 for the second and so on. If one is rejected,
/// returns minus its kind. Allocates nothing.
#[unsafe(no_mangle)]
pub extern "C" fn fmtcanon_same_models(first: &[u8], second: &[u8], error: &mut CError) -> i64
    ensures { AnswersRelationModels Same first.now second.now error.old result error.new }
{
    models_of_relation(Relation::Same, first, second, error)
}

/// Returns a bit mask of the data models in which two formats of the whole language have equal types,
/// print equal bytes for all arguments and make the same calls: 1 for the first of all, 2 for the second
/// and so on. If one is rejected, returns minus its kind. Allocates nothing.
#[unsafe(no_mangle)]
pub extern "C" fn fmtcanon_whole_same_models(first: &[u8], second: &[u8], error: &mut CError) -> i64
    ensures { AnswersRelationModels WholeSame first.now second.now error.old result error.new }
{
    models_of_relation(Relation::WholeSame, first, second, error)
}

/// Returns the data models in which the second format takes just the arguments of the first, as
/// `fmtcanon_same_models` gives them. If one format is rejected in a data model, returns minus its
/// kind in the first such data model. Allocates nothing.
#[unsafe(no_mangle)]
pub extern "C" fn fmtcanon_fits_models(first: &[u8], second: &[u8], error: &mut CError) -> i64
    ensures { AnswersRelationModels Fits first.now second.now error.old result error.new }
{
    models_of_relation(Relation::Fits, first, second, error)
}

/// Returns the data models in which the second format takes the arguments of the first, or those at their
/// beginning, as `fmtcanon_same_models` gives them. If one format is rejected in a data model, returns minus its
/// kind in the first such data model. Allocates nothing.
#[unsafe(no_mangle)]
pub extern "C" fn fmtcanon_fits_fewer_models(first: &[u8], second: &[u8], error: &mut CError) -> i64
    ensures { AnswersRelationModels FitsFewer first.now second.now error.old result error.new }
{
    models_of_relation(Relation::FitsFewer, first, second, error)
}

fn are_related(
    relation: Relation,
    model: i32,
    first: &[u8],
    second: &[u8],
    error: &mut CError,
) -> i64
    ensures { InModel model
        (λ m. AnswersRelation relation m first.now second.now error.old result error.new)
        result (error.new ≡ error.old) }
{
    let Some(model) = model_of(model) else {
        return NO_MODEL;
    };
    match relates(relation, model, first, second) {
        Ok(true) => 1,
        Ok(false) => 0,
        Err((side, refusal)) => put_refusal(error, side, refusal),
    }
}

// Answers with the data models in which two formats are related.
fn models_of_relation(relation: Relation, first: &[u8], second: &[u8], error: &mut CError) -> i64
    ensures { AnswersRelationModels relation first.now second.now error.old result error.new }
{
    match related_models(relation, first, second) {
        Ok(sum) => i64::from(sum),
        Err((side, refusal)) => put_refusal(error, side, refusal),
    }
}

// The data models in which two formats are related, as a sum.
fn related_models(relation: Relation, first: &[u8], second: &[u8]) -> Result<u8, (Side, Refusal)>
    ensures { MatchResult result
        (λ sum. AllByRecursion (AcceptsRelated relation first.now second.now) ALL
        × AreModels (λ model. AreRelated relation model first.now second.now) 1 ALL sum)
        (λ stop. IsFirstIn ALL (AcceptsRelated relation first.now second.now)
        (RefusesRelated relation first.now second.now stop)) }
{
    let mut sum = 0;
    let mut weight = 1;
    for model in &Model::ALL {
        if relates(relation, *model, first, second)? {
            sum += weight;
        }
        weight *= 2;
    }
    Ok(sum)
}

#[inline(always)]
fn relates(
    relation: Relation,
    model: Model,
    first: &[u8],
    second: &[u8],
) -> Result<bool, (Side, Refusal)>
    ensures { MatchResult result (Relates relation model first.now second.now)
        (λ stop. RefusesRelated relation first.now second.now stop model) }
{
    match relation {
        Relation::Same => pf_canon::same_text(model, first, second),
        Relation::WholeSame => pf_whole::same_text(model, first, second),
        Relation::Fits => is_nowhere(fits(model, first, second)),
        Relation::FitsFewer => is_nowhere(fits_fewer(model, first, second)),
    }
}

// Whether there is no index at which arguments differ.
fn is_nowhere(index: Result<Option<u64>, (Side, Refusal)>) -> Result<bool, (Side, Refusal)>
    ensures { result ≡ is_nowhere index }
{
    match index {
        Ok(None) => Ok(true),
        Ok(Some(_)) => Ok(false),
        Err(stop) => Err(stop),
    }
}

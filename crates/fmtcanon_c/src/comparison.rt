//! How two formats compare.
ghost use Rattle.std.specs.Prelude.{◌≡◌, MatchOption, length, pos};
ghost use Rattle.pf_compare.specs.Answers.{FaultForCompare};
ghost use Rattle.pf_whole.specs.Comparisons.{FaultForWholeCompare, IsProfileVerdict, ShowsArguments};
ghost use Rattle.fmtcanon_c.specs.Comparisons.{AnswersVerdict, IsComparisonCode, IsUncountedVerdict, PutsComparison, IsFaultCode, verdict_code, verdict_number, words_of};
ghost use Rattle.fmtcanon_c.specs.Models.{InModel};
ghost use Rattle.fmtcanon_c.specs.Buffers.{put};

use crate::interface::{CError, NO_MEMORY, NO_MODEL, model_of, put_refusal};
use crate::words::put_words;
use pf_compare::{CompareFault, first_difference};
use pf_whole::WholeVerdict;
use std::alloc::{AllocError, Global};

/// `fmtcanon_comparison`: what two formats are to each other.
#[repr(C)]
#[derive(Clone, Copy)]
pub struct CComparison {
    /// The argument at which types or calls differ, counted from 0, or how many arguments are given.
    pub number: u64,
    /// 1 for the same, 2 for other types, 3 for arguments, 4 for other calls.
    pub verdict: u32,
    /// The place of the argument among the candidates of its type, from 1 to 17, or 0.
    pub renderings: u32,
}

/// Compares two formats, and puts the words of the arguments for which they
/// print different bytes into a buffer that has room for them. How many bytes these are, or the
/// code of an error.
#[unsafe(no_mangle)]
pub extern "C" fn fmtcanon_compare(
    alloc: Global,
    model: i32,
    first: &[u8],
    second: &[u8],
    out: &mut [u8],
    comparison: &mut CComparison,
    error: &mut CError,
) -> i64
    ensures { InModel model
        (λ m. PutsComparison (IsProfileVerdict m first.now second.now)
        (FaultForCompare m first.now second.now) out.old comparison.old error.old result
        out.new comparison.new error.new)
        result ((out.new ≡ out.old) × (comparison.new ≡ comparison.old)
        × (error.new ≡ error.old)) }
{
    let Some(model) = model_of(model) else {
        return NO_MODEL;
    };
    match first_difference(alloc, model, first, second) {
        Ok(found) => {
            let renderings = u32::from(found.renderings());
            match WholeVerdict::of_profile(alloc, model, first, found) {
                Ok(verdict) => put_verdict(&verdict, renderings, out, comparison),
                Err(AllocError) => NO_MEMORY,
            }
        }
        Err(fault) => fault_code(error, fault),
    }
}

/// Compares two formats of the whole language. Words of arguments for which they differ are put into a
/// buffer that has room for them: `any` for an argument that may be any. Returns how many bytes these
/// are, or the code of an error.
#[unsafe(no_mangle)]
pub extern "C" fn fmtcanon_whole_compare(
    alloc: Global,
    model: i32,
    first: &[u8],
    second: &[u8],
    out: &mut [u8],
    comparison: &mut CComparison,
    error: &mut CError,
) -> i64
    ensures { InModel model
        (λ m. PutsComparison (IsUncountedVerdict m first.now second.now)
        (FaultForWholeCompare m first.now second.now) out.old comparison.old error.old result
        out.new comparison.new error.new)
        result ((out.new ≡ out.old) × (comparison.new ≡ comparison.old)
        × (error.new ≡ error.old)) }
{
    let Some(model) = model_of(model) else {
        return NO_MODEL;
    };
    match pf_whole::compare(alloc, model, first, second) {
        Ok(verdict) => put_verdict(&verdict, 0, out, comparison),
        Err(fault) => fault_code(error, fault),
    }
}

// Puts a verdict, unless no memory has room for the words.
fn put_verdict(
    verdict: &WholeVerdict,
    renderings: u32,
    out: &mut [u8],
    comparison: &mut CComparison,
) -> i64
    ensures { (error : _) → AnswersVerdict verdict.now renderings out.old comparison.old error result
        out.new comparison.new error }
{
    match put_words_of(out, verdict) {
        Some(len) => {
            *comparison = c_comparison(verdict, renderings);
            len
        }
        None => NO_MEMORY,
    }
}

// Puts the words of the arguments that a verdict shows, each terminated by NUL.
fn put_words_of(out: &mut [u8], verdict: &WholeVerdict) -> Option<i64>
    ensures { MatchOption result ((out.new ≡ out.old) × ShowsArguments verdict.now)
        (λ len. (len ≡ pos (length (words_of verdict.now)))
        × (out.new ≡ put (words_of verdict.now) out.old)) }
{
    match verdict {
        WholeVerdict::Same => Some(0),
        WholeVerdict::Types(_) => Some(0),
        WholeVerdict::Directives(_) => Some(0),
        WholeVerdict::Args(shown) => put_words(out, shown),
    }
}

// Leaves the refusal of a comparison that wasn't made there, and gives the code of its fault.
fn fault_code(error: &mut CError, fault: CompareFault) -> i64
    ensures { IsFaultCode fault error.old result error.new }
{
    match fault {
        CompareFault::Refused(side, refusal) => put_refusal(error, side, refusal),
        CompareFault::Memory => NO_MEMORY,
    }
}

fn c_comparison(verdict: &WholeVerdict, renderings: u32) -> CComparison
    ensures { IsComparisonCode verdict.now renderings result }
{
    let (code, number) = verdict_numbers(verdict);
    CComparison {
        number,
        verdict: code,
        renderings,
    }
}

fn verdict_numbers(verdict: &WholeVerdict) -> (u32, u64)
    ensures code { result.0 ≡ verdict_code verdict.now }
    ensures number { result.1 ≡ verdict_number verdict.now }
{
    match verdict {
        WholeVerdict::Same => (1, 0),
        WholeVerdict::Types(index) => (2, *index),
        WholeVerdict::Directives(index) => (4, *index),
        WholeVerdict::Args(shown) => (3, shown.len() as u64),
    }
}

//! Whether two formats take the same arguments.
ghost use Rattle.std.specs.Prelude.{◌≡◌, ◌<◌, ◌≤◌, List, length, ◌⊎◌, MatchResult};
ghost use Rattle.pf_posix.specs.declared.numbered.TheConstants.{ROOM as MOST};
ghost use Rattle.pf_posix.specs.declared.types.WholeArgType.{WholeArgType as WholeArgTypeOf};
ghost use Rattle.pf_posix.specs.Laws.{ComparesArgumentTypes, ComparesBeginning, FaultForFits, IsFirstDifference, IsFirstExcess, filled};
ghost use Rattle.pf_posix.specs.Items.{HasArguments};
ghost use Rattle.pf_posix.specs.ListComparisons.{AreCounted, AreFew, IsListComparison};

use crate::argument_types::arguments;
use crate::numbered::ROOM;
use crate::types::WholeArgType;
use crate::types_in_order::TypesInOrder;
use pf_text::{Refusal, Side};
use pf_values::{ArgType, Model};

// How many types of a format a list has.
const FEW: usize = 16;

/// Returns where the second format takes other arguments than the first (C11 7.21.6.1, paragraph 3;
/// POSIX fprintf on numbered arguments): `None` if the lists of their types are equal, otherwise
/// the first index from 0 at which they differ. If one list is a prefix of the other, that is the
/// shorter one's length. `Err` if one is rejected, the first before the second.
pub fn fits(model: Model, first: &[u8], second: &[u8]) -> Result<Option<u64>, (Side, Refusal)>
    ensures { MatchResult result (ComparesArgumentTypes model first.now second.now)
        (FaultForFits model first.now second.now) }
{
    if first == second {
        return with_itself(model, first);
    }
    match compared(model, first, second) {
        Ok(found) => Ok(found.difference),
        Err(fault) => Err(fault),
    }
}

/// Returns where the second format takes an argument that the first doesn't have, which may leave
/// some over at the end (C11 7.21.6.1, paragraph 2): `None` if the types of the second are a
/// beginning of those of the first, otherwise the first index from 0 at which the second has a type
/// that the first doesn't have there. `Err` if one is rejected, the first before the second.
pub fn fits_fewer(model: Model, first: &[u8], second: &[u8]) -> Result<Option<u64>, (Side, Refusal)>
    ensures { MatchResult result (ComparesBeginning model first.now second.now)
        (FaultForFits model first.now second.now) }
{
    if first == second {
        return with_itself(model, first);
    }
    match compared(model, first, second) {
        Ok(found) => Ok(found.excess()),
        Err(fault) => Err(fault),
    }
}

/// How the types of two formats compare.
#[derive(Clone, Copy)]
pub(crate) struct TypeComparison {
    /// The first index at which they differ.
    pub(crate) difference: Option<u64>,
    /// How many the second format has.
    pub(crate) second_count: u64,
}

impl TypeComparison {
    // The first index at which the second format has a type that the first doesn't have there.
    #[inline(always)]
    fn excess(self) -> Option<u64>
        ensures { (a b : List WholeArgTypeOf) → IsFirstDifference a b self.difference
            → self.second_count ≡ length b → IsFirstExcess a b result }
    {
        match self.difference {
            None => None,
            Some(index) => {
                if index < self.second_count {
                    return Some(index);
                }
                None
            }
        }
    }
}

// Compares two formats: by lists of their types, unless both have more than `FEW`.
#[inline(always)]
fn compared(model: Model, first: &[u8], second: &[u8]) -> Result<TypeComparison, (Side, Refusal)>
    ensures { MatchResult result (IsListComparison model first.now second.now)
        (FaultForFits model first.now second.now) }
{
    let mut types = [WholeArgType::Profile(ArgType::Int); FEW];
    let mut others = [WholeArgType::Profile(ArgType::Int); FEW];
    match arguments(model, first, &mut types) {
        Err(refusal) => Err((Side::First, refusal)),
        Ok(count) => match arguments(model, second, &mut others) {
            Err(refusal) => Err((Side::Second, refusal)),
            Ok(second_count) => {
                if count.min(second_count) > FEW as u64 {
                    return of_many(model, first, second, count, second_count);
                }
                Ok(TypeComparison {
                    difference: difference(&types, count, &others, second_count),
                    second_count,
                })
            }
        },
    }
}

// Whether a format takes the arguments that it takes: it does unless it is rejected.
#[inline(always)]
fn with_itself(model: Model, text: &[u8]) -> Result<Option<u64>, (Side, Refusal)>
    ensures all { MatchResult result (ComparesArgumentTypes model text.now text.now)
        (FaultForFits model text.now text.now) }
    ensures fewer { MatchResult result (ComparesBeginning model text.now text.now)
        (FaultForFits model text.now text.now) }
{
    match arguments(model, text, &mut []) {
        Ok(_) => Ok(None),
        Err(refusal) => Err((Side::First, refusal)),
    }
}

// Compares two formats that have these numbers of types. Never inlined, since it is rare.
#[inline(never)]
fn of_many(
    model: Model,
    first: &[u8],
    second: &[u8],
    count: u64,
    second_count: u64,
) -> Result<TypeComparison, (Side, Refusal)>
    requires { AreCounted model first.now second.now count second_count }
    ensures { MatchResult result (IsListComparison model first.now second.now)
        (FaultForFits model first.now second.now) }
{
    if count.min(second_count) > ROOM as u64 {
        return Ok(TypeComparison {
            difference: difference_in_order(model, first, second, count, second_count),
            second_count,
        });
    }
    match by_tables(model, first, second) {
        Ok(difference) => Ok(TypeComparison {
            difference,
            second_count,
        }),
        Err(fault) => Err(fault),
    }
}

// Returns the first index at which two formats differ. Both have more types than a numbered one can have.
fn difference_in_order(
    model: Model,
    first: &[u8],
    second: &[u8],
    count: u64,
    second_count: u64,
) -> Option<u64>
    requires counted { AreCounted model first.now second.now count second_count }
    requires many { (MOST < count) × (MOST < second_count) }
    ensures { (types others : List WholeArgTypeOf) → HasArguments model first.now types
        → HasArguments model second.now others → IsFirstDifference types others result }
{
    let mut one = TypesInOrder::new(first);
    let mut other = TypesInOrder::new(second);
    let least = count.min(second_count);
    let mut index = 0;
    while index < least {
        if one.next(model).number() != other.next(model).number() {
            return Some(index);
        }
        index += 1;
    }
    if count == second_count {
        return None;
    }
    Some(index)
}

// Returns the first index at which two formats differ. One has no more types than a numbered one can have.
fn by_tables(model: Model, first: &[u8], second: &[u8]) -> Result<Option<u64>, (Side, Refusal)>
    requires { AreFew model first.now second.now }
    ensures { MatchResult result (ComparesArgumentTypes model first.now second.now)
        (FaultForFits model first.now second.now) }
{
    let mut types = [WholeArgType::Profile(ArgType::Int); ROOM];
    let mut others = [WholeArgType::Profile(ArgType::Int); ROOM];
    match arguments(model, first, &mut types) {
        Err(refusal) => Err((Side::First, refusal)),
        Ok(count) => match arguments(model, second, &mut others) {
            Err(refusal) => Err((Side::Second, refusal)),
            Ok(second_count) => Ok(difference(&types, count, &others, second_count)),
        },
    }
}

// The first index at which two lists differ. Slices of one length hold their first types, and all of one
// list's.
fn difference(
    types: &[WholeArgType],
    count: u64,
    others: &[WholeArgType],
    second_count: u64,
) -> Option<u64>
    requires { length others.now ≡ length types.now }
    ensures { (a b start from : List WholeArgTypeOf) → types.now ≡ filled start a
        → others.now ≡ filled from b → count ≡ length a → second_count ≡ length b
        → (length a ≤ length types.now) ⊎ (length b ≤ length types.now)
        → IsFirstDifference a b result }
{
    let mut index: usize = 0;
    while index < types.len() && (index as u64) < count && (index as u64) < second_count {
        if types[index].number() != others[index].number() {
            return Some(index as u64);
        }
        index += 1;
    }
    if count == second_count {
        return None;
    }
    Some(index as u64)
}

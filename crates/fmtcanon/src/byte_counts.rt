//! The smallest and the largest number of bytes that a format prints, in a line.
ghost use Rattle.std.specs.Prelude.{◌≡◌, ◌++◌, IfOk, MatchResult};
ghost use Rattle.fmtcanon.specs.Answers.{IsFormatFault};
ghost use Rattle.fmtcanon.specs.ByteCounts.{HasBoundsLine, bounds_line, greatest_words};
ghost use Rattle.pf_whole.specs.Languages.{Profile};

use crate::lines::push_decimal;
use crate::outcome::Outcome;
use pf_bounds::{Bounds, bounds};
use pf_values::Model;
use std::alloc::{AllocError, Global};

/// Returns the line of `bounds`: how many bytes a format prints at least and at most in a data model.
/// `Err` if the format or memory is refused.
pub fn bounds_line(alloc: Global, model: Model, format: &[u8]) -> Result<Vec<u8>, Outcome>
    ensures { MatchResult result (λ out. HasBoundsLine model format.now out.items)
        (IsFormatFault Profile model format.now) }
{
    let found = match bounds(model, format) {
        Ok(found) => found,
        Err(refusal) => return Err(Outcome::refused(None, refusal)),
    };
    Ok(line_of_bounds(alloc, found)?)
}

fn line_of_bounds(alloc: Global, found: Bounds) -> Result<Vec<u8>, AllocError>
    ensures { IfOk result (λ out. out.items ≡ bounds_line found.least found.greatest) }
{
    let mut out = Vec::new(alloc);
    push_decimal(&mut out, found.least)?;
    out.push(b' ')?;
    push_greatest(&mut out, found.greatest)?;
    out.push(b'\n')?;
    Ok(out)
}

// Adds the largest number, or `unbounded`.
fn push_greatest(out: &mut Vec<u8>, greatest: Option<u128>) -> Result<(), AllocError>
    ensures { IfOk result (λ _. out.new.items ≡ out.old.items ++ greatest_words greatest) }
{
    match greatest {
        None => out.extend_from_slice(b"unbounded"),
        Some(count) => push_decimal(out, count),
    }
}

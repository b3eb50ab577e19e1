//! How many bytes a format prints at least and at most.
ghost use Rattle.std.specs.Prelude.{◌≡◌};
ghost use Rattle.fmtcanon_c.specs.ByteCounts.{PutsBounds, limited, limited_or_none};
ghost use Rattle.fmtcanon_c.specs.Models.{InModel};

use crate::interface::{CError, NO_MODEL, model_of, put_refusal};
use pf_bounds::bounds;
use pf_text::Side;

/// `FMTCANON_UNBOUNDED`
pub(crate) const UNBOUNDED: u64 = 18_446_744_073_709_551_615;

/// The largest number that is put.
pub(crate) const MOST: u64 = 18_446_744_073_709_551_614;

/// `fmtcanon_bounds`: how many bytes a format prints.
#[repr(C)]
#[derive(Clone, Copy)]
pub struct CBounds {
    /// The smallest number.
    pub least: u64,
    /// The largest number, or `FMTCANON_UNBOUNDED`.
    pub greatest: u64,
}

/// Puts the smallest and the largest number of bytes that a format prints, over all arguments of its
/// types. Returns 0, or the code of an error. Allocates nothing.
#[unsafe(no_mangle)]
pub extern "C" fn fmtcanon_bounds(
    model: i32,
    text: &[u8],
    out: &mut CBounds,
    error: &mut CError,
) -> i64
    ensures { InModel model (λ m. PutsBounds m text.now out.old error.old result out.new error.new)
        result ((out.new ≡ out.old) × (error.new ≡ error.old)) }
{
    let Some(model) = model_of(model) else {
        return NO_MODEL;
    };
    match bounds(model, text) {
        Ok(found) => {
            *out = CBounds {
                least: limited(found.least),
                greatest: limited_or_none(found.greatest),
            };
            0
        }
        Err(refusal) => put_refusal(error, Side::First, refusal),
    }
}

fn limited(n: u128) -> u64
    ensures { result ≡ limited n }
{
    if n < u128::from(MOST) {
        return n as u64;
    }
    MOST
}

fn limited_or_none(greatest: Option<u128>) -> u64
    ensures { result ≡ limited_or_none greatest }
{
    match greatest {
        None => UNBOUNDED,
        Some(n) => limited(n),
    }
}

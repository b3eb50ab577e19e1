//! Calls that allocate more than once, and that neither the program nor the C library shows: each allocation of a call
//! is refused in turn.
use super::blocks::{Seen, answer_of};
use super::exhaustion::Exhausted;
use pf_compare::confirms;
use pf_render::{RenderVecFault, render_vec};
use pf_values::{Arg, Model};
use std::alloc::{AllocError, Global};

#[derive(Clone, Copy)]
pub(super) enum Call {
    RenderVec,
    Confirms,
}

// The literal bytes before the directives of two formats.
const FIRST: usize = 1_100;

const SECOND: usize = 4_500;

// The lengths of the allocations of each call, in order. A vector that is full grows to twice its length, or to what it has
// to hold if that is more. Each part of a directive is written alone, as spaces and then digits.
fn lens_of(call: Call) -> &'static [usize] {
    match call {
        Call::RenderVec => &[1_100, 3_098, 6_196, 12_392],
        Call::Confirms => &[1_100, 3_098, 6_196, 4_500, 9_000],
    }
}

fn render_vec_seen(alloc: Global) -> Seen {
    let mut format = [b'x'; FIRST + 12];
    format[FIRST..].copy_from_slice(b"%2000d%4095d");
    match render_vec(alloc, Model::Lp64, &format, &[Arg::Int(-1), Arg::Int(42)]) {
        Ok(bytes) => answer_of(
            bytes.len() == FIRST + 6_095 && bytes.starts_with(b"xx") && bytes.ends_with(b" 42"),
        ),
        Err(RenderVecFault::Memory) => Seen::Memory,
        Err(_) => Seen::Wrong,
    }
}

fn confirms_seen(alloc: Global) -> Seen {
    let mut first = [b'x'; FIRST + 6];
    first[FIRST..].copy_from_slice(b"%2000d");
    let mut second = [b'x'; SECOND + 7];
    second[SECOND..].copy_from_slice(b"%.4000d");
    match confirms(alloc, Model::Ilp32, &first, &second, &[Arg::Int(42)]) {
        Ok(differ) => answer_of(differ),
        Err(AllocError) => Seen::Memory,
    }
}

fn outcome_of(alloc: Global, call: Call) -> Seen {
    match call {
        Call::RenderVec => render_vec_seen(alloc),
        Call::Confirms => confirms_seen(alloc),
    }
}

// A block for each length, the first one last. Between them are blocks that stay, so that two are never joined.
fn blocks_for(
    alloc: Global,
    lens: &[usize],
    between: &mut Vec<Vec<u8>>,
) -> Result<Vec<Vec<u8>>, AllocError> {
    let mut blocks = Vec::with_capacity(alloc, lens.len())?;
    for len in lens.iter().rev() {
        blocks.push(Vec::with_capacity(alloc, *len)?)?;
        between.push(Vec::with_capacity(alloc, FIRST)?)?;
    }
    Ok(blocks)
}

/// Whether a call is out of memory as long as only the blocks of its first allocations are free, whichever is the next,
/// and succeeds once all are.
pub(super) fn each_is_refused(alloc: Global, call: Call) -> Result<bool, AllocError> {
    let mut between = Vec::with_capacity(alloc, lens_of(call).len())?;
    let mut blocks = blocks_for(alloc, lens_of(call), &mut between)?;
    let _exhausted = Exhausted::new(alloc)?;
    for _ in 0..blocks.len() {
        if outcome_of(alloc, call) != Seen::Memory {
            return Ok(false);
        }
        drop(blocks.pop());
    }
    Ok(outcome_of(alloc, call) == Seen::Answer)
}

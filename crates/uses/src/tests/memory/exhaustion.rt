//! Memory that is used up, so that a call finds none, or finds what was freed since.
use std::alloc::{AllocError, Global};

// The most blocks that are taken. The largest is no larger than the address space, 2^47 bytes.
const BLOCKS: usize = 524_288;

// The bytes of stack that calls may need: the stack can't grow once memory is used up.
const STACK: usize = 262_144;

// More bytes of stack, for callers of different depths.
const DEPTH: usize = 65_536;

// Above this size the C library keeps no freed block for requests of the same size only.
const LARGEST_KEPT: usize = 1_040;

/// All blocks of memory. Dropping it frees them.
#[derive(Drop)]
pub(super) struct Exhausted {
    taken: Vec<Vec<u8>>,
}

impl Exhausted {
    /// Takes all memory, the largest blocks first.
    pub(super) fn new(alloc: Global) -> Result<Exhausted, AllocError> {
        let mut taken = Vec::with_capacity(alloc, BLOCKS)?;
        if !is_stack_grown(taken.capacity()) {
            return Err(AllocError);
        }
        for power in 0..33u32 {
            take_all(alloc, &mut taken, (1usize << 36) >> power);
        }
        for less in 0..LARGEST_KEPT {
            take_all(alloc, &mut taken, LARGEST_KEPT - less);
        }
        Ok(Exhausted { taken })
    }

    /// Takes all blocks of this size that were freed since.
    pub(super) fn take(&mut self, alloc: Global, size: usize) {
        take_all(alloc, &mut self.taken, size);
    }
}

// Has the stack grow. An index that isn't known before the run keeps the block from being optimized away.
#[inline(never)]
fn is_stack_grown(seed: usize) -> bool {
    let mut block = [0u8; STACK];
    let at = seed % STACK;
    block[at] = 1;
    block[STACK - 1 - at] < 2
}

/// Has the stack grow further than `Exhausted::new` does. Memory that was used up before may lie below it, so that it can't
/// grow once more.
#[inline(never)]
pub(super) fn is_stack_deep(seed: usize) -> bool {
    let mut block = [0u8; DEPTH];
    let at = seed % DEPTH;
    block[at] = 1;
    is_stack_grown(seed) && block[DEPTH - 1 - at] < 2
}

// Takes blocks of this size until one is refused.
fn take_all(alloc: Global, taken: &mut Vec<Vec<u8>>, size: usize) {
    for _ in taken.len()..BLOCKS {
        match Vec::with_capacity(alloc, size) {
            Ok(block) => {
                if taken.push(block).is_err() {
                    return;
                }
            }
            Err(_) => return,
        }
    }
}

/// Whether each allocation of up to a few pages is refused.
pub(super) fn is_all_refused(alloc: Global) -> bool {
    for size in 1..16_384usize {
        if Vec::<u8>::with_capacity(alloc, size).is_ok() {
            return false;
        }
    }
    true
}

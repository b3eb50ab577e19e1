//! Callers of `canonical` and `same_text`, as CALLING.md of `pf_canon` has them.
use pf_canon::{canonical, same_text};
use pf_text::TextFault;
use pf_values::Model;
use std::alloc::Global;

/// Returns whether two formats mean the same, by their canonical texts.
fn mean_the_same(alloc: Global, first: &[u8], second: &[u8]) -> Result<bool, TextFault> {
    let first = canonical(alloc, Model::Lp64, first)?;
    let second = canonical(alloc, Model::Lp64, second)?;
    Ok(first.as_slice() == second.as_slice())
}

/// Returns whether two formats are accepted and mean the same. It allocates nothing.
fn mean_the_same_here(first: &[u8], second: &[u8]) -> bool {
    same_text(Model::Lp64, first, second) == Ok(true)
}

// Whether both answer as CALLING.md says.
fn both_tell_formats_apart(alloc: Global) -> bool {
    mean_the_same(alloc, b"%5c", b"    %c") == Ok(true)
        && mean_the_same(alloc, b"%05d", b"%.5d") == Ok(false)
        && mean_the_same_here(b"%5c", b"    %c")
        && !mean_the_same_here(b"%05d", b"%.5d")
}

#[test]
fn callers_compare_formats(rt: HostRuntime) {
    assert!(rt; both_tell_formats_apart(rt.alloc()));
}

//! Each method of `Signature`, and the texts of faults.
use pf_text::{Refusal, Signature, TextFault, signature};
use pf_values::{ArgType, Model, RefusalKind};
use std::alloc::{AllocError, Global};

fn is_list_of(found: &Signature, wanted: &[ArgType]) -> bool {
    [
        found.as_slice() == wanted,
        found.len() == wanted.len(),
        found.is_empty() == wanted.is_empty(),
        found.get(0) == wanted.first().copied(),
        found.get(wanted.len()).is_none(),
    ] == [true; 5]
}

fn has_types(alloc: Global, format: &[u8], wanted: &[ArgType]) -> bool {
    match signature(alloc, Model::Lp64, format) {
        Ok(found) => is_list_of(&found, wanted),
        Err(_) => false,
    }
}

#[test]
fn types_in_order(rt: HostRuntime) {
    let alloc = rt.alloc();
    assert!(rt;
        [
            has_types(alloc, b"100%%", &[]),
            has_types(alloc, b"%s%zu", &[ArgType::Str, ArgType::ULong]),
            has_types(alloc, b"%d%d%d%d%d%d%d%d%d", &[ArgType::Int; 9]),
        ] == [true; 3]
    );
}

fn has_texts(alloc: Global) -> Result<bool, AllocError> {
    let refused = TextFault::Refused(Refusal {
        kind: RefusalKind::Unexpected,
        at: 3,
    });
    let text = format!(in alloc; "{refused}, {}", TextFault::Memory)?;
    Ok(text.as_str() == "refused (Unexpected) at byte 3, out of memory")
}

#[test]
fn text_of_a_refusal(rt: HostRuntime) {
    assert!(rt; has_texts(rt.alloc()) == Ok(true));
}

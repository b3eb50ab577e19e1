//! A caller of `compare`, as CALLING.md of `pf_compare` has it.
use pf_compare::{CompareFault, Verdict, compare};
use pf_values::Model;
use std::alloc::Global;

/// Whether one format may replace another, and otherwise the first argument that shows why not.
#[derive(Drop)]
enum Standing {
    Fits,
    OtherTypes(u64),
    PrintsOtherwise(usize),
}

fn may_stand_for(alloc: Global, old: &[u8], new: &[u8]) -> Result<Standing, CompareFault> {
    let comparison = compare(alloc, Model::Lp64, old, new)?;
    match comparison.verdict {
        Verdict::Same => Ok(Standing::Fits),
        Verdict::Types(index) => Ok(Standing::OtherTypes(index)),
        Verdict::Args(args) => Ok(Standing::PrintsOtherwise(args.len())),
    }
}

// Whether it returns what CALLING.md says, and that a text is rejected.
fn is_answered(alloc: Global) -> bool {
    matches!(may_stand_for(alloc, b"%5c", b"    %c"), Ok(Standing::Fits))
        && matches!(
            may_stand_for(alloc, b"%d %s", b"%s %d"),
            Ok(Standing::OtherTypes(0))
        )
        && matches!(
            may_stand_for(alloc, b"%d%05d", b"%d%.5d"),
            Ok(Standing::PrintsOtherwise(2))
        )
        && matches!(
            may_stand_for(alloc, b"%y", b"%d"),
            Err(CompareFault::Refused(_, _))
        )
}

#[test]
fn a_caller_asks_whether_one_may_stand_for_another(rt: HostRuntime) {
    assert!(rt; is_answered(rt.alloc()));
}

//! What the faults of the libraries say, each once.
use pf_canon::{CopyFault, SideFault, StreamFault};
use pf_compare::CompareFault;
use pf_posix::WholeArgType;
use pf_render::{RenderFault, RenderVecFault, WriteFault};
use pf_text::{Refusal, Side, TextFault};
use pf_values::{ArgType, RefusalKind};
use std::alloc::{AllocError, Global};

const REFUSED: Refusal = Refusal {
    kind: RefusalKind::TooLong,
    at: 7,
};

fn texts_say(alloc: Global) -> Result<bool, AllocError> {
    let text = format!(in alloc; "{}; {}", TextFault::Refused(REFUSED), TextFault::Memory)?;
    Ok(text.as_str() == "refused (TooLong) at byte 7; out of memory")
}

fn streams_say(alloc: Global) -> Result<bool, AllocError> {
    let second = SideFault {
        side: Side::Second,
        fault: StreamFault::Refused(REFUSED),
    };
    let text = format!(in alloc; "{second}; {}", StreamFault::Read)?;
    Ok(text.as_str() == "Second: refused (TooLong) at byte 7; read failed")
}

fn copies_say(alloc: Global) -> Result<bool, AllocError> {
    let refused = CopyFault::Refused(REFUSED);
    let text = format!(in alloc; "{refused}; {}; {}", CopyFault::Read, CopyFault::Write(9))?;
    Ok(text.as_str() == "refused (TooLong) at byte 7; read failed; write failed after 9 bytes")
}

fn comparisons_say(alloc: Global) -> Result<bool, AllocError> {
    let refused = CompareFault::Refused(Side::First, REFUSED);
    let text = format!(in alloc; "{refused}; {}", CompareFault::Memory)?;
    Ok(text.as_str() == "refused (TooLong) at byte 7; out of memory")
}

fn renderings_say(alloc: Global) -> Result<bool, AllocError> {
    let count = RenderFault::WrongCount {
        wanted: 2,
        given: 1,
    };
    let write = WriteFault { written: 9 };
    let text = format!(in alloc;
        "{count}; {}; {}; {write}",
        RenderFault::WrongType(3),
        RenderFault::Write(8)
    )?;
    Ok(
        text.as_str()
            == "wanted 2 arguments, given 1; argument 3 has the wrong type; write failed after 8 bytes; write failed after 9 bytes",
    )
}

fn renderings_in_memory_say(alloc: Global) -> Result<bool, AllocError> {
    let count = RenderVecFault::WrongCount {
        wanted: 2,
        given: 1,
    };
    let text = format!(in alloc;
        "{count}; {}; {}",
        RenderVecFault::WrongType(3),
        RenderVecFault::Memory
    )?;
    Ok(text.as_str() == "wanted 2 arguments, given 1; argument 3 has the wrong type; out of memory")
}

#[test]
fn each_fault_has_its_text(rt: HostRuntime) {
    let alloc = rt.alloc();
    assert!(rt; texts_say(alloc) == Ok(true));
    assert!(rt; streams_say(alloc) == Ok(true));
    assert!(rt; copies_say(alloc) == Ok(true));
    assert!(rt; comparisons_say(alloc) == Ok(true));
    assert!(rt; renderings_say(alloc) == Ok(true));
    assert!(rt; renderings_in_memory_say(alloc) == Ok(true));
}

#[test]
fn the_default_type_is_int(rt: HostRuntime) {
    assert!(rt; WholeArgType::default() == WholeArgType::Profile(ArgType::Int));
}

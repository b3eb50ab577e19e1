//! The callers in CALLING.md of `pf_literals`.
ghost use Rattle.std.specs.Prelude.{IsTrue};
ghost use Rattle.pf_literals.specs.Elements.{Bytes};
ghost use Rattle.pf_literals.specs.Sources.{IsSourceOf};

use pf_literals::{LiteralFault, decode, encode, source_offset};
use std::alloc::Global;

/// Whether two pieces of C source are known to denote one string.
fn stand_for_one_string(alloc: Global, first: &[u8], second: &[u8]) -> bool
    ensures { IsTrue result
        → (bytes : Bytes) × IsSourceOf first.now bytes × IsSourceOf second.now bytes }
{
    let Ok(of_first) = decode(alloc, first) else {
        return false;
    };
    let Ok(of_second) = decode(alloc, second) else {
        return false;
    };
    of_first.as_slice() == of_second.as_slice()
}

/// The one literal for a source, however many literals and escape sequences that has.
fn in_one_literal(alloc: Global, source: &[u8]) -> Result<Vec<u8>, LiteralFault> {
    let text = decode(alloc, source)?;
    match encode(alloc, &text) {
        Ok(literal) => Ok(literal),
        Err(_) => Err(LiteralFault::Memory),
    }
}

fn is_in_one_literal(alloc: Global, source: &[u8], wanted: &[u8]) -> bool {
    match in_one_literal(alloc, source) {
        Ok(literal) => literal.as_slice() == wanted,
        Err(_) => false,
    }
}

#[test]
fn callers_of_literals(rt: HostRuntime) {
    let alloc = rt.alloc();
    assert!(rt;
        [
            stand_for_one_string(alloc, b"\"\\t%d\"", b"\"\\11%\" \"d\""),
            stand_for_one_string(alloc, b"\"%d\"", b"\"%i\""),
            stand_for_one_string(alloc, b"%d", b"%d"),
            is_in_one_literal(
                alloc,
                b"\"Total:\\x9\" \"%i\" \"\\12\"",
                b"\"Total:\\t%i\\n\""
            ),
        ] == [true, false, false, true]
    );
}

// The places of an escape and of a byte in the run after it.
#[test]
fn a_byte_has_its_place(rt: HostRuntime) {
    let source = b"\"\\t%*d\"".as_slice();
    assert!(rt; [source_offset(source, 0), source_offset(source, 2)] == [Some(1), Some(4)]);
}

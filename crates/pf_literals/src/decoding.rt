//! The bytes of a source of string literals.
ghost use Rattle.std.specs.Prelude.{◌≡◌, ◌++◌, [], IfOk, MatchResult};
ghost use Rattle.pf_literals.specs.Answers.{FaultForDecode};
ghost use Rattle.pf_literals.specs.Sources.{IsSourceOf};
ghost use Rattle.pf_literals.specs.Walks.{IsDecodingFault, part_bytes};

use crate::cursor::{Cursor, NextPart, SourcePart};
use crate::faults::LiteralFault;
use std::alloc::{AllocError, Allocator, Global};

/// Returns the bytes that a source of string literals denotes (C11 6.4.5, paragraphs 4 to 6), without
/// the NUL after them. It allocates once, as many bytes as the source has, and nothing if there are no
/// bytes. `Err` if the text is not a source, or if memory is refused.
pub fn decode(alloc: Global, source: &[u8]) -> Result<Vec<u8>, LiteralFault>
    ensures { MatchResult result
        (λ v. IsSourceOf source.now v.items) (FaultForDecode source.now) }
{
    decode_in(alloc, source)
}

// What `decode` returns, on any allocator.
pub(crate) fn decode_in<A: Allocator>(alloc: A, source: &[u8]) -> Result<Vec<u8, A>, LiteralFault>
    ensures { MatchResult result
        (λ v. IsSourceOf source.now v.items) (FaultForDecode source.now) }
{
    let mut out = Vec::new(alloc);
    append_all(source, &mut out)?;
    Ok(out)
}

// Appends the bytes of a source.
fn append_all<A: Allocator>(source: &[u8], out: &mut Vec<u8, A>) -> Result<(), LiteralFault>
    requires { out.old.items ≡ [] }
    ensures { MatchResult result
        (λ _. IsSourceOf source.now out.new.items) (FaultForDecode source.now) }
{
    let mut cursor = Cursor::new();
    loop {
        match cursor.next_part(source) {
            NextPart::Given(part) => match append(out, part, source.len()) {
                Ok(()) => {}
                Err(_) => return Err(fault_of(cursor, source)),
            },
            NextPart::End(_) => return Ok(()),
            NextPart::Refused(refusal) => return Err(LiteralFault::Refused(refusal)),
        }
    }
}

// Appends the bytes of a part. The room for all that may come is taken with the first.
fn append<A: Allocator>(
    out: &mut Vec<u8, A>,
    part: SourcePart,
    room: usize,
) -> Result<(), AllocError>
    ensures { IfOk result (λ _. out.new.items ≡ out.old.items ++ part_bytes part.entry) }
{
    if out.is_empty() {
        out.reserve_exact(room)?;
    }
    match part {
        SourcePart::Verbatim(verbatim, _) => out.extend_from_slice(verbatim),
        SourcePart::Byte(value, _) => out.extend_from_slice(&[value]),
    }
}

// Why there are no bytes if memory was refused: the rest of the text may be rejected, too.
fn fault_of(cursor: Cursor, source: &[u8]) -> LiteralFault
    ensures { IsDecodingFault source.now cursor result }
{
    match cursor.refusal(source) {
        Some(refusal) => LiteralFault::Refused(refusal),
        None => LiteralFault::Memory,
    }
}

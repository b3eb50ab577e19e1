//! String literals of C source.
ghost use Rattle.std.specs.Prelude.{◌≡◌, ◌+◌, neg_ℤ, pos};
ghost use Rattle.pf_literals.specs.Kinds.{literal_kind_number};
ghost use Rattle.fmtcanon_c.specs.Literals.{IsPlaceCode, PutsDecoded, PutsEncoded, AnswersPlace};

use crate::interface::{CError, LITERAL_KINDS, NO_MEMORY, NO_PLACE, put_string};
use pf_literals::{LiteralFault, LiteralRefusal, decode, encode, source_offset};
use std::alloc::{AllocError, Global};

/// Puts the bytes of a source of string literals, and a zero, into a buffer that has
/// room for them (C11 6.4.5). The number of the bytes, or the code of an error.
#[unsafe(no_mangle)]
pub extern "C" fn fmtcanon_decode_literal(
    alloc: Global,
    source: &[u8],
    out: &mut [u8],
    error: &mut CError,
) -> i64
    ensures { PutsDecoded source.now out.old error.old result out.new error.new }
{
    match decode(alloc, source) {
        Ok(bytes) => {
            put_string(out, &bytes);
            bytes.len() as i64
        }
        Err(LiteralFault::Refused(refusal)) => put_literal_refusal(error, refusal),
        Err(LiteralFault::Memory) => NO_MEMORY,
    }
}

/// Puts the one string literal of some bytes, and a zero, into a buffer that has room for them. The
/// length of the literal, or the code of no memory.
#[unsafe(no_mangle)]
pub extern "C" fn fmtcanon_encode_literal(alloc: Global, text: &[u8], out: &mut [u8]) -> i64
    ensures { PutsEncoded text.now out.old result out.new }
{
    match encode(alloc, text) {
        Ok(literal) => {
            put_string(out, &literal);
            literal.len() as i64
        }
        Err(AllocError) => NO_MEMORY,
    }
}

/// Returns the offset in a source at which the element begins that gives the byte with this index;
/// for the number of bytes, the offset of the last closing quote; otherwise the code for no offset.
/// Allocates nothing.
#[unsafe(no_mangle)]
pub extern "C" fn fmtcanon_source_offset(source: &[u8], index: u64) -> i64
    ensures { AnswersPlace source.now index result }
{
    match source_offset(source, index) {
        Some(at) => place_code(at),
        None => NO_PLACE,
    }
}

// A text of a caller has fewer than 2^63 bytes.
fn place_code(at: u64) -> i64
    ensures { IsPlaceCode at result }
{
    if at < 1 << 63 { at as i64 } else { NO_PLACE }
}

// Leaves a refusal of literals there, and gives its code.
fn put_literal_refusal(error: &mut CError, refusal: LiteralRefusal) -> i64
    ensures code { result ≡ neg_ℤ (pos (LITERAL_KINDS + literal_kind_number refusal.kind)) }
    ensures at { error.new.at ≡ refusal.at }
    ensures kind { error.new.kind ≡ LITERAL_KINDS + literal_kind_number refusal.kind }
    ensures side { error.new.side ≡ 0 }
{
    let number = LITERAL_KINDS + u32::from(refusal.kind.number());
    *error = CError {
        at: refusal.at,
        kind: number,
        side: 0,
    };
    -i64::from(number)
}

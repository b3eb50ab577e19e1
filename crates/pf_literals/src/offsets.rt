//! Where in a source each of its bytes comes from.
ghost use Rattle.std.specs.Prelude.{◌≡◌, ◌<◌, length, MatchOption, slice_get};
ghost use Rattle.pf_literals.specs.Answers.{HasNoOffset, IsOffsetOf};
ghost use Rattle.pf_literals.specs.Walks.{IsFoundOffset, PartEndsBy, part_offsets};

use crate::cursor::{Cursor, NextPart, SourcePart};

/// Returns the offset in a source at which the element begins that gives the byte with this index;
/// for the number of bytes, the offset of the last closing quote. `None` for a greater index, and if
/// the text is not a source.
pub fn source_offset(source: &[u8], index: u64) -> Option<u64>
    ensures { MatchOption result (HasNoOffset source.now index) (IsOffsetOf source.now index) }
{
    let mut cursor = Cursor::new();
    let mut left = index;
    loop {
        match cursor.next_part(source) {
            NextPart::Given(part) => match offset_in(part, left) {
                Some(at) => return if_accepted(cursor, source, at),
                None => left -= len_of(part),
            },
            NextPart::End(close) => return last_offset(close, left),
            NextPart::Refused(_) => return None,
        }
    }
}

// The offset of a byte of a part.
fn offset_in(part: SourcePart, index: u64) -> Option<u64>
    requires { PartEndsBy part usize.MAX }
    ensures { result ≡ slice_get (part_offsets part.entry) index }
{
    if index >= len_of(part) {
        return None;
    }
    match part {
        SourcePart::Verbatim(_, at) => Some(at as u64 + index),
        SourcePart::Byte(_, at) => Some(at as u64),
    }
}

fn len_of(part: SourcePart) -> u64
    ensures { result ≡ length (part_offsets part.entry) }
{
    match part {
        SourcePart::Verbatim(verbatim, _) => verbatim.len() as u64,
        SourcePart::Byte(_, _) => 1,
    }
}

// The offset of the last closing quote, if no byte is left to pass over.
fn last_offset(close: usize, index: u64) -> Option<u64>
    ensures { MatchOption result (0 < index) (λ at. (index ≡ 0) × (at ≡ close)) }
{
    if index == 0 {
        return Some(close as u64);
    }
    None
}

// The offset, if the rest of the text is not rejected.
fn if_accepted(cursor: Cursor, source: &[u8], at: u64) -> Option<u64>
    ensures { IsFoundOffset source.now cursor at result }
{
    match cursor.refusal(source) {
        Some(_) => None,
        None => Some(at),
    }
}

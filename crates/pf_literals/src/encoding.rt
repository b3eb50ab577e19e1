//! The literal of some bytes.
ghost use Rattle.std.specs.Prelude.{◌≡◌, ◌≤◌, ◌*◌, ◌++◌, false, drop, length, IfOk};
ghost use Rattle.pf_literals.specs.Encoding.{encoding, spelled};

use crate::encoded_parts::EncodedPart;
use crate::search::verbatim_len;
use std::alloc::{AllocError, Allocator, Global};

/// Returns the one string literal of some bytes. NUL is written as `\000`; `decode` rejects such a
/// literal, since a C string would end there. It allocates once, the literal's length. `Err` if memory
/// is refused, which it may be for any text.
pub fn encode(alloc: Global, text: &[u8]) -> Result<Vec<u8>, AllocError>
    ensures { IfOk result (λ v. v.items ≡ encoding text.now) }
{
    encode_in(alloc, text)
}

/// Returns how many bytes the literal of a text has, with its quotes.
pub fn encoded_len(text: &[u8]) -> u128
    ensures { result ≡ length (encoding text.now) }
{
    written_len(text, 0) + 2
}

// What `encode` returns, on any allocator.
pub(crate) fn encode_in<A: Allocator>(alloc: A, text: &[u8]) -> Result<Vec<u8, A>, AllocError>
    ensures { IfOk result (λ v. v.items ≡ encoding text.now) }
{
    // Most texts are verbatim bytes throughout, which are searched only once.
    let verbatim = verbatim_len(text);
    let len = verbatim as u128 + written_len(text, verbatim) + 2;
    let room = usize::try_from(len).unwrap_or(usize::MAX);
    let mut out = Vec::with_capacity(alloc, room)?;
    out.extend_from_slice(b"\"")?;
    out.extend_from_slice(&text[..verbatim])?;
    append_from(text, verbatim, &mut out)?;
    out.extend_from_slice(b"\"")?;
    Ok(out)
}

// How many bytes are written for a text from a byte on that doesn't follow a `?`.
fn written_len(text: &[u8], from: usize) -> u128
    requires { from ≤ length text.now }
    ensures len { result ≡ length (spelled false (drop from text.now)) }
    ensures few { result ≤ 4 * length text.now }
{
    let mut len: u128 = 0;
    let mut at = from;
    let mut after = false;
    while at < text.len() {
        let part = EncodedPart::of(after, &text[at..]);
        len += part.written_len() as u128;
        at += part.source_len();
        after = part.ends_in_question();
    }
    len
}

// Appends what is written for a text from a byte on that doesn't follow a `?`.
fn append_from<A: Allocator>(
    text: &[u8],
    from: usize,
    out: &mut Vec<u8, A>,
) -> Result<(), AllocError>
    requires { from ≤ length text.now }
    ensures { IfOk result (λ _. out.new.items ≡ out.old.items ++ spelled false (drop from text.now)) }
{
    let mut at = from;
    let mut after = false;
    while at < text.len() {
        let part = EncodedPart::of(after, &text[at..]);
        part.append(out)?;
        at += part.source_len();
        after = part.ends_in_question();
    }
    Ok(())
}

//! Formats as they are given: by their bytes, or by string literals of C source.
ghost use Rattle.std.specs.Prelude.{◌≡◌, ◌≤◌, IfOk, MatchResult, length};
ghost use Rattle.std.specs.Cow.{cow_slice_items};
ghost use Rattle.pf_literals.specs.Answers.{FaultForDecode};
ghost use Rattle.pf_literals.specs.Sources.{IsSourceOf};
ghost use Rattle.pf_values.specs.meaning.Text.{Text};
ghost use Rattle.fmtcanon.specs.Formats.{IsBytesFault, IsFormat, IsOffsetInText, written_in};

use pf_literals::{LiteralFault, decode, encode, source_offset};
use std::alloc::{AllocError, Global};
use std::borrow::CowSlice;

/// How formats are given, among the words and as records.
#[derive(Clone, Copy)]
pub enum FormatNotation {
    /// By their bytes.
    Bytes,
    /// By string literals with these bytes.
    Literals,
}

impl FormatNotation {
    /// Returns some bytes in this notation. `Err` if memory is refused.
    pub fn write(self, alloc: Global, bytes: Vec<u8>) -> Result<Vec<u8>, AllocError>
        ensures { IfOk result (λ out. out.items ≡ written_in self bytes.items) }
    {
        match self {
            FormatNotation::Bytes => Ok(bytes),
            FormatNotation::Literals => encode(alloc, &bytes),
        }
    }
}

/// A format as it is given.
#[derive(Clone, Copy)]
pub struct GivenFormat<'a> {
    /// How it is given.
    pub notation: FormatNotation,
    /// The text that gives it.
    pub text: &'a [u8],
}

impl<'a> GivenFormat<'a> {
    /// Returns the format that a text gives.
    pub fn new(notation: FormatNotation, text: &'a [u8]) -> GivenFormat<'a>
        ensures notation { result.notation ≡ notation }
        ensures text { result.text.now ≡ text.now }
    {
        GivenFormat { notation, text }
    }

    /// Returns the bytes of the format. `Err` if it is not a source, or if memory is refused.
    pub fn bytes(&self, alloc: Global) -> Result<CowSlice<'a, u8>, LiteralFault>
        ensures { MatchResult result (λ bytes. IsFormat self.now (cow_slice_items bytes))
            (IsBytesFault self.now) }
    {
        match self.notation {
            FormatNotation::Bytes => Ok(CowSlice::Borrowed(self.text)),
            FormatNotation::Literals => decoded(alloc, self.text),
        }
    }

    /// Returns the offset in the text of what gives the byte with this index, or of their end.
    pub fn offset_of(&self, index: u64) -> u64
        ensures { (bytes : Text) → IsFormat self.now bytes → index ≤ length bytes
            → IsOffsetInText self.now.notation self.now.text.now index result }
    {
        match self.notation {
            FormatNotation::Bytes => index,
            // Each byte of a source has an offset, and so has their end.
            FormatNotation::Literals => source_offset(self.text, index).unwrap_or(index),
        }
    }
}

// The bytes of string literals.
fn decoded<'a>(alloc: Global, source: &'a [u8]) -> Result<CowSlice<'a, u8>, LiteralFault>
    ensures { MatchResult result (λ bytes. IsSourceOf source.now (cow_slice_items bytes))
        (FaultForDecode source.now) }
{
    match decode(alloc, source) {
        Ok(bytes) => Ok(CowSlice::Owned(bytes)),
        Err(fault) => Err(fault),
    }
}

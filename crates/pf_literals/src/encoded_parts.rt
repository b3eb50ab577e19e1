//! Parts of the literal of some bytes: a run of verbatim bytes, or the spelling of one byte.
ghost use Rattle.std.specs.Prelude.{◌≡◌, ◌<◌, ◌++◌, length, IfOk};
ghost use Rattle.pf_literals.specs.Spellings.{IsEncodedPartOf, ends_in_question, encoded_part_text, source_len};

use crate::search::verbatim_len;
use crate::spellings::Spelling;
use std::alloc::{AllocError, Allocator};

/// What is written for the first bytes of a text.
#[derive(Clone, Copy, Debug)]
pub(crate) enum EncodedPart<'a> {
    /// A run of verbatim bytes.
    Verbatim(&'a [u8]),
    /// The spelling of one byte, and whether that is `?`.
    Byte(Spelling, bool),
}

impl<'a> EncodedPart<'a> {
    /// What is written for the first bytes of a text that isn't empty, after a `?` or not.
    pub(crate) fn of(after: bool, text: &'a [u8]) -> EncodedPart<'a>
        requires { 0 < length text.now }
        ensures { IsEncodedPartOf after text.now result }
    {
        let len = verbatim_len(text);
        if len == 0 {
            return EncodedPart::Byte(Spelling::of(after, text[0]), text[0] == b'?');
        }
        EncodedPart::Verbatim(&text[..len])
    }

    /// How many bytes of the text it is written for.
    pub(crate) fn source_len(&self) -> usize
        ensures { result ≡ source_len self.now }
    {
        match self {
            EncodedPart::Verbatim(verbatim) => verbatim.len(),
            EncodedPart::Byte(_, _) => 1,
        }
    }

    /// Whether the last of these bytes is a `?`.
    pub(crate) fn ends_in_question(&self) -> bool
        ensures { result ≡ ends_in_question self.now }
    {
        match self {
            EncodedPart::Verbatim(_) => false,
            EncodedPart::Byte(_, question) => *question,
        }
    }

    /// How many bytes are written.
    pub(crate) fn written_len(&self) -> usize
        ensures { result ≡ length (encoded_part_text self.now) }
    {
        match self {
            EncodedPart::Verbatim(verbatim) => verbatim.len(),
            EncodedPart::Byte(spelling, _) => spelling.as_slice().len(),
        }
    }

    /// Appends what is written.
    pub(crate) fn append<A: Allocator>(&self, out: &mut Vec<u8, A>) -> Result<(), AllocError>
        ensures { IfOk result (λ _. out.new.items ≡ out.old.items ++ encoded_part_text self.now) }
    {
        match self {
            EncodedPart::Verbatim(verbatim) => out.extend_from_slice(verbatim),
            EncodedPart::Byte(spelling, _) => out.extend_from_slice(spelling.as_slice()),
        }
    }
}

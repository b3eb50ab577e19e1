//! Canonical texts that are put together on the stack.
ghost use Rattle.std.specs.Prelude.{◌≡◌, MatchResult};
ghost use Rattle.pf_canon.specs.Languages.{HasCanonicalIn};
ghost use Rattle.pf_canon.specs.ShortTexts.{HasRoom, IsUnused, short_text};
ghost use Rattle.pf_canon.specs.VerbatimFronts.{IsVerbatimFront, front_model};

use crate::languages::Language;
use crate::sink::TextBuilder;
use crate::verbatim_front::VerbatimFront;
use arrayvec::ArrayVec;
use pf_text::Refusal;

/// The size in bytes of the room. The canonical text of a format that isn't longer is put together there, so that the
/// format is read once.
const STACK_ROOM: usize = 128;

/// Whether there was room for a canonical text.
#[derive(Clone, Copy, Debug, PartialEq, Eq)]
pub enum Room {
    /// All of it is there.
    Enough,
    /// It has this many bytes, and only some of it are there.
    Counted(u128),
    /// The format has more than 128 bytes, and wasn't read.
    Unread,
}

/// Room for a canonical text of at most 128 bytes.
#[derive(Drop)]
pub struct ShortText {
    builder: TextBuilder<ArrayVec<u8, STACK_ROOM>>,
}

impl ShortText {
    /// Returns room in which nothing was put.
    #[inline(always)]
    pub fn new() -> ShortText
        ensures { IsUnused result }
    {
        ShortText {
            builder: TextBuilder {
                buffer: ArrayVec::new(),
                lost: 0,
            },
        }
    }

    /// Returns the bytes that were put.
    #[inline(always)]
    pub fn as_slice(&self) -> &[u8]
        ensures { result.now ≡ short_text self.now }
    {
        self.builder.buffer.as_slice()
    }

    /// Puts the canonical text of a format in a language, if there is room for it. `Err` if the format is
    /// rejected.
    #[inline(always)]
    pub fn put<L: Language>(
        &mut self,
        front: &VerbatimFront<'_>,
        text: &[u8],
    ) -> Result<Room, Refusal>
        requires unused { IsUnused self.old }
        requires front { IsVerbatimFront L.has_front text.now front.now }
        ensures { MatchResult result
            (HasRoom (HasCanonicalIn L.has_front (front_model front.now) text.now) text.now self.new)
            (λ refusal. L.refuses (front_model front.now) text.now refusal.kind refusal.at) }
    {
        if STACK_ROOM < text.len() {
            return Ok(Room::Unread);
        }
        front.put::<L, _>(text, &mut self.builder)?;
        if self.builder.lost != 0 {
            return Ok(Room::Counted(self.builder.len()));
        }
        Ok(Room::Enough)
    }
}

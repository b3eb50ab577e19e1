//! The walk over the items of a text in memory. Each call that reads a whole text is a loop over `find`, with a
//! step for the item that it stops at.
ghost use Rattle.std.specs.Prelude.{◌≡◌, take};
ghost use Rattle.pf_values.specs.declared.limits.TheConstants.{MAX_TEXT_LEN as LIMIT};
ghost use Rattle.pf_text.specs.Walks.{Finds, IsWalk, IsWalkOver};

use crate::literal_runs::LiteralRuns;
use crate::passed::Passed;
use pf_values::limits::MAX_TEXT_LEN;

/// A walk over the items of a text, or of its front that isn't too long.
#[derive(Clone, Copy, Debug)]
pub struct Walk<'a> {
    text: &'a [u8],
    runs: LiteralRuns,
    /// The offset up to which the text was read.
    pub at: usize,
}

impl<'a> Walk<'a> {
    /// Returns a walk from the first byte on.
    #[inline(always)]
    pub fn new(text: &'a [u8]) -> Walk<'a>
        ensures over { IsWalkOver text.now result }
        ensures at { result.at ≡ 0 }
    {
        match LiteralRuns::of_marked(text) {
            Some(runs) => Walk { text, runs, at: 0 },
            None => Walk {
                text: within_limit(text),
                runs: LiteralRuns::by_search(),
                at: 0,
            },
        }
    }

    /// Returns a walk from an offset on. It takes fewer steps than that from the first byte on if little comes after
    /// the offset.
    #[inline(always)]
    pub fn from(text: &'a [u8], at: usize) -> Walk<'a>
        ensures over { IsWalkOver text.now result }
        ensures at { result.at ≡ at }
    {
        Walk {
            text: within_limit(text),
            runs: LiteralRuns::by_search(),
            at,
        }
    }

    /// Returns the text, up to the limit.
    #[inline(always)]
    pub fn text(&self) -> &'a [u8]
        ensures { result.now ≡ self.now.text.now }
    {
        self.text
    }

    /// Takes literal bytes and items of `P`, and returns whether it stops at a `%` that may begin another item.
    /// False at the end, at a NUL, and at a `%` that is the last byte: no item begins there.
    #[inline(always)]
    pub fn find<P: Passed>(&mut self) -> bool
        requires { IsWalk self.old }
        ensures { Finds P.passes P.leaves self.old self.new result }
    {
        while self.at < self.text.len() {
            let Some(offset) = self.runs.next_end(self.text, self.at) else {
                self.at = self.text.len();
                return false;
            };
            self.at = offset;
            if offset + 1 >= self.text.len() {
                return false;
            }
            if self.text[offset] != b'%' {
                return false;
            }
            let len = P::len(self.text, offset);
            if len == 0 {
                return true;
            }
            self.at = offset + len;
        }
        false
    }
}

/// Returns the front of a text that is as long as a format may be.
#[inline(always)]
pub fn within_limit(text: &[u8]) -> &[u8]
    ensures { result.now ≡ take LIMIT text.now }
{
    if text.len() as u64 > MAX_TEXT_LEN {
        return &text[..MAX_TEXT_LEN as usize];
    }
    text
}

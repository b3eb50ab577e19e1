//! Runs of spaces and of zeros, as fields and numbers are filled up with.
ghost use Rattle.std.specs.Prelude.{◌≡◌, ◌≤◌, replicate};
ghost use Rattle.pf_values.specs.meaning.Text.{space, zero_digit};

use crate::limits::MAX_NUMBER;

/// The longest run that a width or a precision asks for.
pub const MAX_RUN: usize = MAX_NUMBER as usize;

static SPACES: [u8; MAX_RUN] = [b' '; MAX_RUN];

static ZEROS: [u8; MAX_RUN] = [b'0'; MAX_RUN];

/// Returns `count` spaces (C11 7.21.6.1, paragraph 4). They are constant data, for as long as the
/// caller likes.
#[inline(always)]
pub fn spaces<'a>(count: usize) -> &'a [u8]
    requires { count ≤ MAX_RUN }
    ensures { result.now ≡ replicate count space }
{
    &SPACES[..count]
}

/// Returns `count` digits `0` (C11 7.21.6.1, paragraphs 6 and 8).
#[inline(always)]
pub fn zeros<'a>(count: usize) -> &'a [u8]
    requires { count ≤ MAX_RUN }
    ensures { result.now ≡ replicate count zero_digit }
{
    &ZEROS[..count]
}

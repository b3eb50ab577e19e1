//! The whole language without numbered arguments.
ghost use Rattle.std.specs.Prelude.{⊤};
ghost use Rattle.pf_posix.specs.Unnumbered.{IsUnnumberedRefusedAt};
ghost use Rattle.pf_whole.specs.FrontLaws.{past_verbatim};
ghost use Rattle.pf_whole.specs.Fronts.{IsWholeFront, no_front};
ghost use Rattle.pf_whole.specs.Verbatim.{IsOwnSpelling};

use crate::spelling::normal_spelling;
use crate::verbatim_directives::{bare_len, verbatim_len};
use pf_canon::{Language, OtherItem};
use pf_posix::opaque_at;
use pf_text::{Passed, Refusal};
use pf_values::Model;

/// The profile, and what it lacks: directives, each in its normal spelling, and `%m`.
#[derive(Clone, Copy, Debug)]
pub struct Whole;

impl Passed for Whole {
    ghost passes = { IsOwnSpelling };

    ghost leaves = { λ byte. ⊤ };

    #[inline(always)]
    fn len(text: &[u8], at: usize) -> usize {
        match text[at + 1] {
            b'm' => 2,
            b'-' | b'*' | b'.' | b'1'..=b'9' | b'l' | b'L' => verbatim_len(text, at),
            _ => bare_len(text, at),
        }
    }
}

impl Language for Whole {
    ghost has_front = { IsWholeFront };

    ghost refuses = { IsUnnumberedRefusedAt };

    ghost has_none = { no_front };

    ghost has_passed = { past_verbatim };

    #[inline(always)]
    fn other_at(model: Model, text: &[u8], at: usize) -> Result<Option<OtherItem>, Refusal> {
        let Some((opaque, stop)) = opaque_at(model, text, at)? else {
            return Ok(None);
        };
        Ok(Some(OtherItem {
            spelling: normal_spelling(model, opaque),
            stop,
        }))
    }
}

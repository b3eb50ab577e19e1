//! Refusals of a text at its end, and of one that is longer than the limit.
ghost use Rattle.std.specs.Prelude.{◌≡◌, ◌<◌, length};
ghost use Rattle.pf_values.specs.declared.limits.TheConstants.{MAX_TEXT_LEN as LIMIT};
ghost use Rattle.pf_values.specs.declared.refusals.RefusalKind.TheVariants.{TooLong};
ghost use Rattle.pf_posix.specs.Endings.{end_refusal, refusal_of_long};

use crate::specifications::refusal;
use pf_text::Refusal;
use pf_values::RefusalKind;
use pf_values::limits::MAX_TEXT_LEN;

/// The refusal of a text where nothing begins, before its end: at a NUL, or after a `%` that is the last byte.
pub(crate) fn refusal_at(text: &[u8], at: usize) -> Refusal
    requires { at < length text.now }
    ensures { result ≡ end_refusal text.now at }
{
    if text[at] == 0 {
        return refusal(RefusalKind::NulByte, at);
    }
    refusal(RefusalKind::Truncated, text.len())
}

/// The refusal of a text whose front up to the limit is rejected so.
pub(crate) fn of_long(text: &[u8], refused: Refusal) -> Refusal
    ensures { result ≡ refusal_of_long text.now refused }
{
    if text.len() as u64 > MAX_TEXT_LEN && refused.at >= MAX_TEXT_LEN {
        return too_long();
    }
    refused
}

/// The refusal of a text that is longer than the limit.
pub(crate) fn too_long() -> Refusal
    ensures { result ≡ record { kind = TooLong; at = LIMIT } }
{
    Refusal {
        kind: RefusalKind::TooLong,
        at: MAX_TEXT_LEN,
    }
}

//! Directives outside the profile, in formats whose arguments have no numbers.
ghost use Rattle.std.specs.Prelude.{◌≡◌, ◌≤◌, drop, length, take, MatchOption, MatchResult};
ghost use Rattle.pf_values.specs.declared.limits.TheConstants.{MAX_TEXT_LEN as LIMIT};
ghost use Rattle.pf_text.specs.FoundDirectives.{BeginsNoItem};
ghost use Rattle.pf_posix.specs.Heads.{IsOpaqueAt};
ghost use Rattle.pf_posix.specs.Stretches.{IsUnnumberedAccepted};
ghost use Rattle.pf_posix.specs.Unnumbered.{IsUnnumberedRefusedAt};
ghost use Rattle.pf_posix.specs.Endings.{numbered_instead};

use crate::long_texts::{of_long, too_long};
use crate::opaque_directives::Opaque;
use crate::specifications::{Numbering, defined_at, has_errno, refusal};
use pf_text::{Refusal, within_limit};
use pf_values::{Model, RefusalKind};

/// Returns the opaque directive or `%m` at an offset of a text, and where it ends: the text up to there is accepted, and
/// no item of the profile begins there that ends within the limit. `None` at the end of the text. `Err` if the
/// text is rejected there if no argument may have a number: a `$` directly after the first number of a
/// specification as `Numbered`, and everything else as by `arguments`, at the same byte. Allocates nothing.
#[inline(always)]
pub fn opaque_at(model: Model, text: &[u8], at: usize) -> Result<Option<(Opaque, usize)>, Refusal>
    requires within { at ≤ length text.now }
    requires front { IsUnnumberedAccepted (take at text.now) }
    requires none { BeginsNoItem (drop at (take LIMIT text.now)) }
    ensures { MatchResult result (λ found. MatchOption found (at ≡ length text.now) (IsOpaqueAt text.now at))
        (λ refusal. IsUnnumberedRefusedAt model text.now refusal.kind refusal.at) }
{
    if at == text.len() {
        return Ok(None);
    }
    let front = within_limit(text);
    if at == front.len() {
        return Err(too_long());
    }
    if front[at] != b'%' {
        return Err(refusal(RefusalKind::NulByte, at));
    }
    if has_errno(front, at) {
        return Ok(Some((Opaque::Errno, at + 2)));
    }
    match defined_at(front, at, Numbering::Unnumbered) {
        Ok((read, stop)) => Ok(Some((Opaque::Directive(read.parts), stop))),
        Err(refused) => Err(of_long(text, numbered_instead(front, refused.refusal))),
    }
}

// The refusal of a text in which no specification may be numbered: a `$` that is rejected as Mixed numbers an
// argument.
#[inline(never)]
fn numbered_instead(text: &[u8], refused: Refusal) -> Refusal
    ensures at { result.at ≡ refused.at }
    ensures kind { result.kind ≡ numbered_instead text.now refused.kind refused.at }
{
    match refused.kind {
        RefusalKind::Mixed => match text.get(refused.at as usize) {
            Some(b'$') => Refusal {
                kind: RefusalKind::Numbered,
                at: refused.at,
            },
            _ => refused,
        },
        _ => refused,
    }
}

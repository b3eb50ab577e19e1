//! A fast way to see whether a text is canonical. It decides only the cases that it is sure of: other
//! texts are compared with their canonical text item by item, which also finds out why one is rejected.
ghost use Rattle.std.specs.Prelude.{◌≡◌, false, MatchOption, ⊤};
ghost use Rattle.pf_values.specs.meaning.Items.{IsAccepted};
ghost use Rattle.pf_canon.specs.Languages.{DecidesIn};

use crate::changed_directives::known_at;
use crate::items::run_end;
use crate::languages::Language;
use pf_text::{Canonical, Walk, items_end};
use pf_values::Model;
use pf_values::limits::MAX_TEXT_LEN;

/// Whether a text is canonical in a language and data model. `None` if that isn't known, as for a text that is
/// rejected.
pub(crate) fn known_canonical<L: Language>(model: Model, text: &[u8]) -> Option<bool>
    ensures { MatchOption result ⊤ (DecidesIn L.has_front model text.now) }
{
    if text.len() as u64 > MAX_TEXT_LEN {
        return None;
    }
    let walk = Walk::new(text);
    let mut at = run_end::<(Canonical, L)>(walk, 0);
    while at < text.len() {
        let (is_kept, stop) = known_at(model, text, at)?;
        if !is_kept {
            return known_other(&text[stop..]);
        }
        at = run_end::<(Canonical, L)>(walk, stop);
    }
    Some(true)
}

// Decides a text that isn't canonical, by this rest of it: it is accepted if the rest is.
#[inline(never)]
fn known_other(rest: &[u8]) -> Option<bool>
    ensures { MatchOption result ⊤ (λ is. (is ≡ false) × IsAccepted rest.now) }
{
    if items_end(rest) == rest.len() {
        return Some(false);
    }
    None
}

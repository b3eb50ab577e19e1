//! The ends of the runs of literal bytes of a text.
ghost use Rattle.std.specs.Prelude.{◌<◌, ◌≤◌, length, IfSome};
ghost use Rattle.pf_values.specs.meaning.Text.{Text};
ghost use Rattle.pf_text.specs.Walks.{AreRunsOf, IsNextEnd};

use crate::marks::{MAX_MARKED, MIN_MARKED, Marks};
use crate::search::literal_len;

/// The ends of the runs of literal bytes of a text: by its marks, if it has any, or by search.
#[derive(Clone, Copy, Debug)]
pub(crate) struct LiteralRuns {
    marks: Option<Marks>,
}

impl LiteralRuns {
    /// Those of a text that has marks. `None` if it is too short or too long for them.
    #[inline(always)]
    pub(crate) fn of_marked(text: &[u8]) -> Option<LiteralRuns>
        ensures runs { IfSome result (λ runs. AreRunsOf runs text.now) }
        ensures few { IfSome result (λ runs. length text.now ≤ MAX_MARKED) }
    {
        if text.len() < MIN_MARKED {
            return None;
        }
        if text.len() > MAX_MARKED {
            return None;
        }
        Some(LiteralRuns {
            marks: Some(Marks::of(text)),
        })
    }

    /// Those of any text, by search.
    #[inline(always)]
    pub(crate) fn by_search() -> LiteralRuns
        ensures { (text : Text) → AreRunsOf result text }
    {
        LiteralRuns { marks: None }
    }

    /// The first offset from one on that has a `%` or a NUL. `None` if there is none.
    #[inline(always)]
    pub(crate) fn next_end(self, text: &[u8], from: usize) -> Option<usize>
        requires runs { AreRunsOf self text.now }
        requires within { from < length text.now }
        ensures { IsNextEnd text.now from result }
    {
        match self.marks {
            Some(marks) => marks.next_from(from),
            None => next_by_search(text, from),
        }
    }
}

// Most runs after a directive are empty, and need no search.
#[inline(always)]
fn next_by_search(text: &[u8], from: usize) -> Option<usize>
    requires { from < length text.now }
    ensures { IsNextEnd text.now from result }
{
    if text[from] == b'%' {
        return Some(from);
    }
    let end = from + literal_len(&text[from..]);
    if end == text.len() {
        return None;
    }
    Some(end)
}

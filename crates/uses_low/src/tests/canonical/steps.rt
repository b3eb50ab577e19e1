//! Two texts that are compared as streams. `tests/program/test_canonical_rows.py` compares many in memory.
use super::devices::{feed_that_fails, whole};
use pf_canon::{SideFault, StreamFault, same_stream, same_text};
use pf_text::{Refusal, Side};
use pf_values::devices::Feed;
use pf_values::{Counted, Model};

static CUTS: [usize; 4] = [1, 2, 3, 7];

// What `same_stream` answers of two readers in a data model.
fn same_over(model: Model, first: Feed<'_>, second: Feed<'_>) -> Result<bool, SideFault> {
    same_stream(model, &mut Counted::new(first), &mut Counted::new(second))
}

// What `same_stream` is to answer, by the answer of `same_text`.
fn of_streams(answer: Result<bool, (Side, Refusal)>) -> Result<bool, SideFault> {
    match answer {
        Ok(same) => Ok(same),
        Err((side, refusal)) => Err(SideFault {
            side,
            fault: StreamFault::Refused(refusal),
        }),
    }
}

// Whether `same_stream` returns what `same_text` does, however the texts are cut.
pub(super) fn streams_agree(model: Model, first: &[u8], second: &[u8]) -> bool {
    let wanted = of_streams(same_text(model, first, second));
    for step in CUTS {
        if same_over(model, whole(first, step), whole(second, step)) != wanted {
            return false;
        }
    }
    true
}

// The failures of each reader, where a comparison stops at the one of this side.
fn failures_at(first: Feed<'_>, second: Feed<'_>, side: Side) -> Option<(u64, u64)> {
    let want = SideFault {
        side,
        fault: StreamFault::Read,
    };
    let mut r = Counted::new(first);
    let mut s = Counted::new(second);
    let is_named = same_stream(Model::Lp64, &mut r, &mut s) == Err(want);
    is_named.then_some((r.failures(), s.failures()))
}

// Whether the side of a reader that fails after `at` bytes is named; of two, the first.
fn is_named(step: usize, at: usize) -> bool {
    let text: &[u8] = b"ab%5dc";
    let first = failures_at(
        feed_that_fails(text, step, at),
        whole(text, step),
        Side::First,
    );
    let second = failures_at(
        whole(text, step),
        feed_that_fails(text, step, at),
        Side::Second,
    );
    let later = feed_that_fails(text, step, 5);
    let both = failures_at(later, feed_that_fails(text, step, at), Side::First);
    first == Some((1, 0)) && second == Some((0, 1)) && both.is_some()
}

#[test]
fn a_failing_reader_is_named_by_its_side(rt: HostRuntime) {
    for step in CUTS {
        for at in 0..6usize {
            assert!(rt; is_named(step, at), "{step} {at}");
        }
    }
}

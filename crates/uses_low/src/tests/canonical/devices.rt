//! Readers that return a few bytes a call. One call may be interrupted.
use pf_values::devices::Feed;
use std::io::{ErrorKind, Read};

/// A reader of a text that returns at most `step` bytes a call.
pub(super) fn whole(text: &[u8], step: usize) -> Feed<'_> {
    Feed::new(text, step.max(1), None, ErrorKind::Interrupted)
}

/// A reader of a text. One of its calls fails, after `fails_at` bytes.
pub(super) fn feed_that_fails(text: &[u8], step: usize, fails_at: usize) -> Feed<'_> {
    Feed::new(
        text,
        step.max(1),
        Some(fails_at as u64),
        ErrorKind::Interrupted,
    )
}

/// Whether a reader has these bytes left, and no more.
pub(super) fn has_left(feed: Feed<'_>, bytes: &[u8]) -> bool {
    let mut feed = feed;
    let mut byte = [0u8; 1];
    for wanted in bytes {
        if feed.read(&mut byte).ok() != Some(1) || byte[0] != *wanted {
            return false;
        }
    }
    feed.read(&mut byte).ok() == Some(0)
}

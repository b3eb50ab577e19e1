//! The words of arguments, each terminated by NUL, in a buffer of the caller.
ghost use Rattle.std.specs.Prelude.{◌≡◌, ◌≤◌, ◌+◌, ◌++◌, ◌∷◌, [], IfSome, MatchOption, drop, length, pos, take};
ghost use Rattle.fmtcanon_c.specs.Buffers.{put};
ghost use Rattle.fmtcanon_c.specs.Words.{ended_words, word_or_any};

use itoa::Buffer;
use pf_compare::OwnedArg;

/// Puts the words of arguments at the front of a buffer that has room for them, and leaves any other as it
/// is. Returns how many bytes they are; `None` if no memory could hold them, and then nothing is put.
pub(crate) fn put_words(out: &mut [u8], shown: &[Option<OwnedArg>]) -> Option<i64>
    ensures { MatchOption result (out.new ≡ out.old)
        (λ len. (len ≡ pos (length (ended_words shown.now)))
        × (out.new ≡ put (ended_words shown.now) out.old)) }
{
    let len = words_len(shown)?;
    let code = i64::try_from(len).ok()?;
    if len <= out.len() {
        put_each_word(out, shown);
    }
    Some(code)
}

// How many bytes the words are, if a `usize` can say it.
fn words_len(shown: &[Option<OwnedArg>]) -> Option<usize>
    ensures { IfSome result (λ len. len ≡ length (ended_words shown.now)) }
{
    let mut len: usize = 0;
    for argument in shown {
        len = len.checked_add(word_len(argument))?;
    }
    Some(len)
}

// How many bytes a word is, with the NUL after it.
fn word_len(argument: &Option<OwnedArg>) -> usize
    ensures { result ≡ length (word_or_any argument.now ++ 0 ∷ []) }
{
    match argument {
        Some(argument) => {
            let mut digits = Buffer::new();
            let (kind, rest) = argument.word(&mut digits);
            kind.len() + rest.len() + 1
        }
        None => ANY.len() + 1,
    }
}

// The word of an argument that may be any.
const ANY: &[u8] = b"any";

fn put_each_word(out: &mut [u8], shown: &[Option<OwnedArg>])
    requires { length (ended_words shown.now) ≤ length out.old }
    ensures { out.new ≡ ended_words shown.now ++ drop (length (ended_words shown.now)) out.old }
{
    let mut at = 0;
    for argument in shown {
        at = put_word(out, at, argument);
    }
}

// Puts a word and a NUL at an offset, and returns where that ends.
fn put_word(out: &mut [u8], at: usize, argument: &Option<OwnedArg>) -> usize
    requires { at + length (word_or_any argument.now ++ 0 ∷ []) ≤ length out.old }
    ensures end { result ≡ at + length (word_or_any argument.now ++ 0 ∷ []) }
    ensures put { out.new ≡ take at out.old ++ (word_or_any argument.now ++ 0 ∷ [])
        ++ drop (at + length (word_or_any argument.now ++ 0 ∷ [])) out.old }
{
    match argument {
        Some(argument) => {
            let mut digits = Buffer::new();
            let (kind, rest) = argument.word(&mut digits);
            put_parts(out, at, kind, rest)
        }
        None => put_parts(out, at, ANY, b""),
    }
}

// Puts two texts and a NUL at an offset, and returns where that ends.
fn put_parts(out: &mut [u8], at: usize, first: &[u8], second: &[u8]) -> usize
    requires { at + length (first.now ++ second.now ++ 0 ∷ []) ≤ length out.old }
    ensures end { result ≡ at + length (first.now ++ second.now ++ 0 ∷ []) }
    ensures put { out.new ≡ take at out.old ++ (first.now ++ second.now ++ 0 ∷ [])
        ++ drop (at + length (first.now ++ second.now ++ 0 ∷ [])) out.old }
{
    let middle = at + first.len();
    let end = middle + second.len();
    let (_, rest) = out.split_at_mut(at);
    let (front, rest) = rest.split_at_mut(first.len());
    front.copy_from_slice(first);
    let (front, rest) = rest.split_at_mut(second.len());
    front.copy_from_slice(second);
    rest[0] = 0;
    end + 1
}

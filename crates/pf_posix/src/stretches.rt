//! The stretches of a text of the whole language, and what is between them: opaque directives, and `%m`.
ghost use Rattle.std.specs.Prelude.{◌≡◌, ◌≢◌, ◌+◌, ◌<◌, ◌≤◌, IfSome, IsSomeAnd, MatchOption, drop, get_or, length, slice_index};
ghost use Rattle.pf_values.specs.meaning.Text.{percent};
ghost use Rattle.pf_posix.specs.Halts.{BeginsNoneAfter};
ghost use Rattle.pf_posix.specs.Heads.{IsHead, IsPlaced};
ghost use Rattle.pf_posix.specs.Items.{errno_letter};
ghost use Rattle.pf_posix.specs.Stretches.{ReadsStretches, Stretches};
ghost use Rattle.pf_posix.specs.StretchesInText.{HasPartsAt, EndsBehind, IsFound};
ghost use Rattle.pf_posix.specs.declared.specifications.Numbering.TheVariants.{Undecided};

use crate::letters::conversion_of;
use crate::opaque_directives::{Opaque, OpaqueDirective, is_opaque};
use crate::specifications::{Numbering, has_byte, has_errno, specification_at};
use pf_text::literal_len;

/// A stretch of a text, and what the profile lacks after it.
#[derive(Clone, Copy, Debug, PartialEq, Eq)]
pub struct Stretch {
    /// The offset at which the stretch ends.
    pub end: usize,
    /// The opaque directive or `%m` that begins there. None if the text ends there.
    pub opaque: Option<Opaque>,
    /// The offset at which that ends, or the text.
    pub after: usize,
}

// What begins at an offset between items.
#[derive(Clone, Copy)]
enum Found {
    /// Items of the profile, which end at this offset.
    Items(usize),
    /// What the profile lacks, which ends at this offset.
    Opaque(Opaque, usize),
}

/// Returns the first stretch of a text from the offset `from` on, and the opaque directive or `%m` after it
/// (C11 7.21.6.1, paragraphs 3 and 4; POSIX syslog). The text has to be accepted without numbered arguments,
/// and `from` is 0 or an `after` of an earlier result. For other texts the result may be `None`, and nothing
/// is said of it except that its offsets lie in the text. It reads nothing after that offset, and allocates
/// nothing.
pub fn next_stretch(text: &[u8], from: usize) -> Option<Stretch>
    requires { from ≤ length text.now }
    ensures head { (left : Stretches) → ReadsStretches (drop from text.now) left
        → IsSomeAnd result (IsHead text.now from left) }
    ensures placed { IfSome result (IsPlaced text.now from) }
{
    let mut at = from;
    while at < text.len() {
        match found_at(text, at)? {
            Found::Items(stop) => at = stop,
            Found::Opaque(opaque, stop) => {
                return Some(Stretch {
                    end: at,
                    opaque: Some(opaque),
                    after: stop,
                });
            }
        }
    }
    Some(Stretch {
        end: at,
        opaque: None,
        after: at,
    })
}

// Literal bytes, `%%`, a directive, or `%m`.
#[inline(always)]
fn found_at(text: &[u8], at: usize) -> Option<Found>
    requires { at < length text.now }
    ensures found { (left : Stretches) → ReadsStretches (drop at text.now) left
        → IsSomeAnd result (IsFound text.now at left) }
    ensures further { IfSome result (EndsBehind text.now at) }
{
    if text[at] != b'%' {
        return literals_at(text, at);
    }
    if has_byte(text, at + 1, b'%') {
        return Some(Found::Items(at + 2));
    }
    if has_errno(text, at) {
        return Some(Found::Opaque(Opaque::Errno, at + 2));
    }
    let (parts, stop) = parts_at(text, at)?;
    if is_opaque(parts) {
        return Some(Found::Opaque(Opaque::Directive(parts), stop));
    }
    Some(Found::Items(stop))
}

// The parts of the specification at an offset, and where it ends. A conversion alone is read by its letter.
#[inline(always)]
fn parts_at(text: &[u8], at: usize) -> Option<(OpaqueDirective, usize)>
    requires start { at < length text.now }
    requires percent { get_or text.now at 0 ≡ percent }
    requires other { get_or text.now (at + 1) 0 ≢ percent }
    requires errno { get_or text.now (at + 1) 0 ≢ errno_letter }
    ensures { MatchOption result (BeginsNoneAfter Undecided (drop at text.now)) (HasPartsAt text.now at) }
{
    if at + 1 < text.len() {
        if let Some(conversion) = conversion_of(text[at + 1]) {
            return Some((OpaqueDirective::bare(conversion), at + 2));
        }
    }
    match specification_at(text, at, Numbering::Undecided) {
        Ok((read, stop)) => Some((read.parts, stop)),
        Err(_) => None,
    }
}

#[inline(always)]
fn literals_at(text: &[u8], at: usize) -> Option<Found>
    requires within { at < length text.now }
    requires other { slice_index text.now at ≢ percent }
    ensures found { (left : Stretches) → ReadsStretches (drop at text.now) left
        → IsSomeAnd result (IsFound text.now at left) }
    ensures further { IfSome result (EndsBehind text.now at) }
{
    let run = literal_len(&text[at..]);
    if run == 0 {
        return None;
    }
    Some(Found::Items(at + run))
}

//! The conversion specifications of a format, put into a slice while the format is checked.
ghost use Rattle.std.specs.Prelude.{◌≡◌, ◌≢◌, ◌≤◌, ◌+◌, ℕ, None, get_or, length, take, MatchResult, IfOk};
ghost use Rattle.pf_values.specs.declared.limits.TheConstants.{MAX_TEXT_LEN as LIMIT};
ghost use Rattle.pf_values.specs.meaning.Text.{percent};
ghost use Rattle.pf_text.specs.Walks.{HasPercent, IsWalk};
ghost use Rattle.pf_posix.specs.declared.specifications.Specification.{Specification as Read};
ghost use Rattle.pf_posix.specs.Directives.{HasDirectiveCount};
ghost use Rattle.pf_posix.specs.Halts.{IsDefinedAt};
ghost use Rattle.pf_posix.specs.Items.{errno_letter};
ghost use Rattle.pf_posix.specs.Listings.{IsListedOrNone};
ghost use Rattle.pf_posix.specs.Plain.{HasPlainItems, numbering_after};
ghost use Rattle.pf_posix.specs.Refusals.{IsWholeRefusedAt};

use crate::argument_types::{numbering_after, other_arguments, put};
use crate::directive_spans::{DirectiveSpan, fetch_count, put_directives, span_between};
use crate::fetches::bare_type;
use crate::long_texts::refusal_at;
use crate::specifications::{defined_at, has_errno};
use crate::types::WholeArgType;
use pf_text::{Percents, Refusal, Walk, directive_at};
use pf_values::Model;

// The front of a format in which no argument has a number: where it ends, and how many specifications it has and
// arguments it takes.
#[derive(Clone, Copy, Debug)]
struct ListedFront {
    at: usize,
    count: usize,
    fetched: usize,
}

/// The specifications of the front of a text up to the limit.
#[inline(never)]
pub(crate) fn directives_within(
    model: Model,
    text: &[u8],
    out: &mut [DirectiveSpan],
) -> Result<u64, Refusal>
    ensures directives { MatchResult result
        (λ count. HasDirectiveCount model (take LIMIT text.now) out.old out.new count)
        (λ refusal. IsWholeRefusedAt model (take LIMIT text.now) refusal.kind refusal.at) }
    ensures length { length out.new ≡ length out.old }
{
    let mut walk = Walk::new(text);
    let mut count = 0;
    let mut fetched = 0;
    while walk.find::<Percents>() {
        let front = put_directive(model, walk.text(), walk.at, out, count, fetched);
        if front.at == walk.at {
            return other_directives(model, walk, fetched, out);
        }
        walk.at = front.at;
        count = front.count;
        fetched = front.fetched;
    }
    if walk.at < walk.text().len() {
        return Err(refusal_at(walk.text(), walk.at));
    }
    Ok(count as u64)
}

// Puts the specification at an offset after `count` others, which take `fetched` arguments.
#[inline(always)]
fn put_directive(
    model: Model,
    text: &[u8],
    at: usize,
    out: &mut [DirectiveSpan],
    count: usize,
    fetched: usize,
) -> ListedFront
    requires percent { HasPercent text.now at }
    requires other { get_or text.now (at + 1) 0 ≢ percent }
    requires short { length text.now ≤ LIMIT }
    requires few { count ≤ at }
    requires few_fetched { fetched ≤ at }
    ensures { IsListedOrNone model text.now at out.old out.new count fetched result }
{
    match bare_type(text[at + 1]) {
        Some(kind) => {
            put(out, count, plain_span(at, at + 2, fetched, kind));
            ListedFront {
                at: at + 2,
                count: count + 1,
                fetched: fetched + 1,
            }
        }
        None => put_other_directive(model, text, at, out, count, fetched),
    }
}

// Puts a specification that isn't a conversion alone. It isn't inlined: that keeps the loop of those short.
#[inline(never)]
fn put_other_directive(
    model: Model,
    text: &[u8],
    at: usize,
    out: &mut [DirectiveSpan],
    count: usize,
    fetched: usize,
) -> ListedFront
    requires percent { HasPercent text.now at }
    requires other { get_or text.now (at + 1) 0 ≢ percent }
    requires short { length text.now ≤ LIMIT }
    requires few { count ≤ at }
    requires few_fetched { fetched ≤ at }
    ensures { IsListedOrNone model text.now at out.old out.new count fetched result }
{
    match directive_at(text, at) {
        Some(found) => {
            let kind = WholeArgType::Profile(found.directive.arg_type(model));
            put(out, count, plain_span(at, found.stop, fetched, kind));
            ListedFront {
                at: found.stop,
                count: count + 1,
                fetched: fetched + 1,
            }
        }
        None => put_any_directive(model, text, at, out, count, fetched),
    }
}

// Puts a specification that the profile lacks, or nothing for `%m`.
#[inline(never)]
fn put_any_directive(
    model: Model,
    text: &[u8],
    at: usize,
    out: &mut [DirectiveSpan],
    count: usize,
    fetched: usize,
) -> ListedFront
    requires percent { HasPercent text.now at }
    requires other { get_or text.now (at + 1) 0 ≢ percent }
    requires short { length text.now ≤ LIMIT }
    requires few { count ≤ at }
    requires few_fetched { fetched ≤ at }
    ensures { IsListedOrNone model text.now at out.old out.new count fetched result }
{
    if has_errno(text, at) {
        return ListedFront {
            at: at + 2,
            count,
            fetched,
        };
    }
    let unread = ListedFront { at, count, fetched };
    match defined_at(text, at, numbering_after(fetched)) {
        Ok((read, stop)) => match read.position {
            Some(_) => unread,
            None => {
                put(
                    out,
                    count,
                    span_between(model, at, stop, fetched as u64, &read),
                );
                ListedFront {
                    at: stop,
                    count: count + 1,
                    fetched: fetched + fetch_count(&read) as usize,
                }
            }
        },
        Err(_) => unread,
    }
}

// The specification between two offsets that takes one argument, of an index and a type.
#[inline(always)]
fn plain_span(begin: usize, end: usize, argument: usize, kind: WholeArgType) -> DirectiveSpan
    ensures { result ≡ record {
      begin = begin;
      end = end;
      argument = argument;
      width_argument = None;
      precision_argument = None;
      kind = kind;
    } }
{
    DirectiveSpan {
        begin: begin as u64,
        end: end as u64,
        argument: argument as u64,
        width_argument: None,
        precision_argument: None,
        kind,
    }
}

// The specifications of a format, or its refusal. The walk has come over items that take `fetched` arguments, none of
// them by number, and is at a specification that has a number or is rejected. If the format is accepted, there were none
// before it.
#[inline(never)]
fn other_directives(
    model: Model,
    walk: Walk<'_>,
    fetched: usize,
    out: &mut [DirectiveSpan],
) -> Result<u64, Refusal>
    requires walk { IsWalk walk }
    requires percent { HasPercent walk.text.now walk.at }
    requires other { get_or walk.text.now (walk.at + 1) 0 ≢ percent }
    requires errno { get_or walk.text.now (walk.at + 1) 0 ≢ errno_letter }
    requires front { HasPlainItems model walk.text.now walk.at fetched }
    requires never { (found : Read × ℕ) → IsDefinedAt walk.text.now walk.at (numbering_after fetched) found
        → found.0.position ≢ None }
    ensures directives { MatchResult result
        (λ count. HasDirectiveCount model walk.entry.text.now out.old out.new count)
        (λ refusal. IsWholeRefusedAt model walk.entry.text.now refusal.kind refusal.at) }
    ensures none { IfOk result (λ _. fetched ≡ 0) }
    ensures length { length out.new ≡ length out.old }
{
    match other_arguments(model, walk, fetched, &mut []) {
        Ok(_) => Ok(put_directives(model, walk.text(), out)),
        Err(refusal) => Err(refusal),
    }
}

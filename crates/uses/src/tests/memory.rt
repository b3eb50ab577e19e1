//! What the calls return when every allocation is refused.
use exhaustion::{Exhausted, is_all_refused, is_stack_deep};
use growths::{Call, each_is_refused};
use pf_canon::{
    CanonBytes, Profile, canonical_in, canonical_len, canonical_stream, is_canonical, same_stream,
    same_text,
};
use pf_compare::{CompareFault, Verdict, compare};
use pf_literals::{LiteralFault, LiteralKind, LiteralRefusal, decode};
use pf_probes::candidates;
use pf_reduce::{is_normal, reduce};
use pf_render::{RenderVecFault, render, render_one, render_vec};
use pf_text::{Pieces, Refusal, Scanner, Side, TextFault, check, signature, spell};
use pf_values::{Arg, ArgType, Conv, Counted, Directive, FlagSet, Length, Model, RefusalKind};
use std::alloc::{AllocError, Global};

mod blocks;
mod exhaustion;
mod growths;

// The answer about two formats.
#[derive(Clone, Copy, PartialEq, Eq)]
enum Seen {
    Same,
    Types(u64),
    Args,
    // the number and the offset of a refusal
    First(u8, u64),
    Second(u8, u64),
    Memory,
}

fn answer_about(alloc: Global, f: &str, g: &str) -> Seen {
    match compare(alloc, Model::Lp64, f.as_bytes(), g.as_bytes()) {
        Ok(comparison) => match comparison.verdict {
            Verdict::Same => Seen::Same,
            Verdict::Types(index) => Seen::Types(index),
            Verdict::Args(_) => Seen::Args,
        },
        Err(CompareFault::Refused(side, refusal)) => match side {
            Side::First => Seen::First(refusal.kind.number(), refusal.at),
            Side::Second => Seen::Second(refusal.kind.number(), refusal.at),
        },
        Err(CompareFault::Memory) => Seen::Memory,
    }
}

#[rattlefmt::skip]
static COMPARISONS: [(&str, &str, Seen); 10] = [
    ("%zd", "%ld", Seen::Same),
    ("%5c", "    %c", Seen::Same),
    ("", "", Seen::Same),
    ("%d", "%u", Seen::Types(0)),
    ("%d%d", "%d%ld", Seen::Types(1)),
    ("%s%4095c", "%s", Seen::Types(1)),
    ("%y", "%d", Seen::First(3, 1)),
    ("%y", "%z", Seen::First(3, 1)),
    ("%d", "%l", Seen::Second(2, 2)),
    ("%05d", "%.5d", Seen::Memory),
];

// Whether each answer is right when every allocation is refused.
fn has_each_answer(alloc: Global) -> Result<bool, AllocError> {
    let _exhausted = Exhausted::new(alloc)?;
    for (f, g, want) in &COMPARISONS {
        if answer_about(alloc, f, g) != *want {
            return Ok(false);
        }
    }
    Ok(is_all_refused(alloc))
}

// How many types a signature has; `None` if memory is out.
fn length_of(alloc: Global, format: &[u8]) -> Option<usize> {
    match signature(alloc, Model::Lp64, format) {
        Ok(signature) => Some(signature.len()),
        Err(TextFault::Memory) => None,
        Err(TextFault::Refused(_)) => Some(usize::MAX),
    }
}

// Whether eight types need no allocation, and nine do.
fn eight_types_need_none(alloc: Global) -> Result<bool, AllocError> {
    let _exhausted = Exhausted::new(alloc)?;
    let eight = length_of(alloc, b"%d%d%d%d%d%d%d%d");
    let nine = length_of(alloc, b"%d%d%d%d%d%d%d%d%d");
    Ok(eight == Some(8) && nine.is_none())
}

// Whether `same_stream` answers that two texts mean the same.
fn streams_are_same() -> bool {
    let mut first = Counted::new(b"%zd".as_slice());
    let mut second = Counted::new(b"%ld".as_slice());
    same_stream(Model::Lp64, &mut first, &mut second) == Ok(true)
}

// Whether `CanonBytes` gives `%d` for `%i`, and then no more.
fn bytes_come() -> bool {
    let mut bytes = CanonBytes::new(Model::Lp64, Counted::new(b"%i".as_slice()));
    let (first, second, end) = (bytes.next(), bytes.next(), bytes.next());
    first == Some(Ok(b'%')) && second == Some(Ok(b'd')) && end.is_none()
}

// Whether `Scanner` takes bytes one by one.
fn bytes_are_taken() -> bool {
    let mut scanner = Scanner::new();
    let is_fed = scanner.feed(b'a').is_ok() && scanner.feed(b'%').is_ok();
    is_fed && scanner.finish().is_err()
}

// Whether `Pieces` gives a run, `%%` and a directive, and then no more.
fn pieces_come() -> bool {
    let mut pieces = Pieces::new(b"a%%%d");
    for _ in 0..3 {
        if !matches!(pieces.next(), Some(Ok(_))) {
            return false;
        }
    }
    pieces.next().is_none()
}

// Whether `render_one` writes a number.
fn is_printed(directive: &Directive, place: &mut [u8]) -> bool {
    let argument = Arg::Int(42);
    if argument.arg_type() != directive.arg_type(Model::Lp64) {
        return false;
    }
    let mut writer = Counted::new(place);
    render_one(Model::Lp64, directive, argument, &mut writer).is_ok()
}

// Whether `%20d` is spelled, printed and reduced.
fn directive_is_taken() -> bool {
    let made = Directive::new(FlagSet::empty(), Some(20), None, Length::None, Conv::D);
    let Ok(directive) = made else {
        return false;
    };
    let mut place = [0u8; 20];
    is_printed(&directive, &mut place)
        && place.ends_with(b" 42")
        && spell(&directive).as_slice() == b"%20d".as_slice()
        && !is_normal(Model::Lp64, &directive)
        && reduce(Model::Lp64, &directive).spaces == 9
}

// Whether the calls that go over a text in memory answer.
fn texts_are_read() -> bool {
    check(b"%d%%%-5s") == Ok(())
        && is_canonical(Model::Lp64, b"%5d") == Ok(true)
        && canonical_len(Model::Ilp32, b"%4095d") == Ok(4_088)
        && same_text(Model::Lp64, b"%zd", b"%ld") == Ok(true)
}

// Whether `canonical_stream` writes what it settles.
fn is_copied() -> bool {
    let mut place = [0u8; 10];
    let mut reader = Counted::new(b"a%.0sb%05u".as_slice());
    let mut writer = Counted::new(place.as_mut_slice());
    canonical_stream(Model::Lp64, &mut reader, &mut writer).is_ok() && place == *b"ab%.0s%.5u"
}

// Whether `render` writes what a format prints.
fn is_rendered() -> bool {
    let mut place = [0u8; 6];
    let mut writer = Counted::new(place.as_mut_slice());
    render(Model::Lp64, b"%5d|", &[Arg::Int(42)], &mut writer).is_ok() && place == *b"   42|"
}

// Whether the calls without an allocator succeed when every allocation is refused.
fn all_answer(alloc: Global) -> Result<bool, AllocError> {
    let _exhausted = Exhausted::new(alloc)?;
    Ok(
        texts_are_read()
            && is_copied()
            && is_rendered()
            && streams_are_same()
            && bytes_come()
            && bytes_are_taken()
            && pieces_come()
            && directive_is_taken()
            && !candidates(Model::Lp64, ArgType::Int).is_empty()
            && is_all_refused(alloc),
    )
}

// The most literal bytes before the `%` in `canonical_refuses`.
const MOST: usize = 256;

// Whether `len` literal bytes and a `%` are rejected.
fn canonical_refuses(alloc: Global, len: usize) -> bool {
    let mut place = [b'x'; MOST];
    let Some(text) = place.get_mut(..len.saturating_add(1)) else {
        return false;
    };
    if let Some(last) = text.last_mut() {
        *last = b'%';
    }
    let refusal = Refusal {
        kind: RefusalKind::Truncated,
        at: len as u64 + 1,
    };
    canonical_in::<Profile>(alloc, Model::Lp64, text, 0).err() == Some(TextFault::Refused(refusal))
}

// Whether the empty text is canonical, and texts of each length are rejected.
fn canonical_takes_none(alloc: Global) -> bool {
    for len in 0..MOST {
        if !canonical_refuses(alloc, len) {
            return false;
        }
    }
    match canonical_in::<Profile>(alloc, Model::Lp64, b"", 1) {
        Ok(text) => text.is_empty(),
        Err(_) => false,
    }
}

// How `render_vec` ends, if it prints nothing.
fn render_end(alloc: Global, format: &[u8], args: &[Arg<'_>]) -> Result<bool, RenderVecFault> {
    match render_vec(alloc, Model::Lp64, format, args) {
        Ok(bytes) => Ok(bytes.is_empty()),
        Err(fault) => Err(fault),
    }
}

// Whether `render_vec` prints nothing, and finds faults before it prints.
fn render_takes_none(alloc: Global) -> bool {
    let refusal = Refusal {
        kind: RefusalKind::Truncated,
        at: 4,
    };
    let missing = RenderVecFault::WrongCount {
        wanted: 1,
        given: 0,
    };
    let number = [Arg::Int(0)];
    [
        render_end(alloc, b"%.0d", &number),
        render_end(alloc, b"abc%", &[]),
        render_end(alloc, b"abc%d", &[]),
        render_end(alloc, b"abc%s", &number),
    ] == [
        Ok(true),
        Err(RenderVecFault::Refused(refusal)),
        Err(missing),
        Err(RenderVecFault::WrongType(0)),
    ]
}

// How `decode` ends, if it gives no bytes.
fn decode_end(alloc: Global, source: &[u8]) -> Result<bool, LiteralFault> {
    match decode(alloc, source) {
        Ok(bytes) => Ok(bytes.is_empty()),
        Err(fault) => Err(fault),
    }
}

// Whether `decode` gives no bytes, and rejects a text even if it has no memory for the bytes before the fault.
fn decode_takes_none(alloc: Global) -> bool {
    let refusal = LiteralRefusal {
        kind: LiteralKind::BadEscape,
        at: 5,
    };
    [
        decode_end(alloc, b" \"\" \"\" "),
        decode_end(alloc, b"\"a\""),
        decode_end(alloc, b"\"\\n\""),
        decode_end(alloc, b"\"abcd\\q\""),
    ] == [
        Ok(true),
        Err(LiteralFault::Memory),
        Err(LiteralFault::Memory),
        Err(LiteralFault::Refused(refusal)),
    ]
}

// Whether the calls that give a vector allocate nothing for an empty one, nor for a fault.
fn none_for_nothing(alloc: Global) -> Result<bool, AllocError> {
    let _exhausted = Exhausted::new(alloc)?;
    Ok(
        canonical_takes_none(alloc)
            && render_takes_none(alloc)
            && decode_takes_none(alloc)
            && is_all_refused(alloc),
    )
}

// The number of parts of the test below.
const PARTS: u8 = 6;

// Whether a part of the test is right: `compare` allocates only for the arguments that it returns; eight types need no
// allocation; nor do the calls without an allocator; nor an empty vector, nor a fault; and each allocation of a call may be
// refused.
fn is_right(alloc: Global, part: u8) -> Result<bool, AllocError> {
    match part {
        0 => has_each_answer(alloc),
        1 => eight_types_need_none(alloc),
        2 => all_answer(alloc),
        3 => none_for_nothing(alloc),
        4 => each_is_refused(alloc, Call::RenderVec),
        _ => each_is_refused(alloc, Call::Confirms),
    }
}

// This is one test, since `rt try --test` takes its whole time limit for each test that uses up memory. Those of
// `blocks.rt` need a heap from which nothing was freed.
#[test]
fn memory_that_is_used_up(rt: HostRuntime) -> Result<(), AllocError> {
    assert!(rt; is_stack_deep(usize::from(PARTS)));
    for part in 0..PARTS {
        let is_right = is_right(rt.alloc(), part)?;
        assert!(rt; is_right, "part {part}");
    }
    Ok(())
}

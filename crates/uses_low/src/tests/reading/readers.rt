//! What `Scanner` and `Pieces` return.
use pf_text::laws::{
    kinds_of_refusals, reads_once, refused_once, whole_run_of_pieces, whole_run_of_steps,
};
use pf_text::{Piece, Pieces, Refusal, Scanner, Step};
use pf_values::{Conv, Directive, FlagSet, Length, RefusalKind};
use std::alloc::Global;

const EARLY: Refusal = Refusal {
    kind: RefusalKind::Truncated,
    at: 2,
};

const BAD: Refusal = Refusal {
    kind: RefusalKind::BadPercent,
    at: 2,
};

fn has_steps(alloc: Global, text: &[u8], wanted: &[Step], end: Result<(), Refusal>) -> bool {
    match whole_run_of_steps(alloc, text) {
        Ok((steps, found)) => found == end && steps.as_slice() == wanted,
        Err(_) => false,
    }
}

fn has_as_many_pieces(alloc: Global, text: &[u8], count: usize, end: Result<(), Refusal>) -> bool {
    match whole_run_of_pieces(alloc, text) {
        Ok((pieces, found)) => found == end && pieces.len() == count,
        Err(_) => false,
    }
}

// The steps of a text with this directive at its end, and how many pieces there are.
fn runs_end_with(alloc: Global, directive: Directive) -> bool {
    let steps = [
        Step::Byte(b'a'),
        Step::More,
        Step::Percent,
        Step::More,
        Step::More,
        Step::Directive(directive),
    ];
    [
        has_steps(alloc, b"a%%%5d", &steps, Ok(())),
        has_steps(alloc, b"%5%d", &[Step::More; 2], Err(BAD)),
        has_as_many_pieces(alloc, b"ab%%%5dc", 4, Ok(())),
        has_as_many_pieces(alloc, b"%%%", 1, Err(Refusal { at: 3, ..EARLY })),
    ] == [true; 4]
}

// `%5d`.
fn five() -> Option<Directive> {
    Directive::new(FlagSet::empty(), Some(5), None, Length::None, Conv::D).ok()
}

#[test]
fn whole_runs_up_to_a_refusal(rt: HostRuntime) {
    let are_right = match five() {
        Some(directive) => runs_end_with(rt.alloc(), directive),
        None => false,
    };
    assert!(rt; are_right);
    reads_once();
    kinds_of_refusals();
    refused_once();
}

#[test]
fn a_refusal_stays(rt: HostRuntime) {
    let mut scanner = Scanner::new();
    let steps = [scanner.feed(b'%'), scanner.feed(b'5')];
    let early = scanner.finish();
    let refused = [scanner.feed(b'%'), scanner.feed(b'd')];
    let late = scanner.finish();
    assert!(rt;
        (steps, early, refused, late, scanner.offset())
            == ([Ok(Step::More); 2], Err(EARLY), [Err(BAD); 2], Err(BAD), 2)
    );
}

// A refusal comes once, and nothing after it.
fn is_handed_out(directive: Directive) -> bool {
    let mut pieces = Pieces::new(b"ab%%%5dc%");
    let wanted = [
        Some(Ok(Piece::Literal(b"ab"))),
        Some(Ok(Piece::Percent)),
        Some(Ok(Piece::Directive(directive))),
        Some(Ok(Piece::Literal(b"c"))),
        Some(Err(Refusal { at: 9, ..EARLY })),
        None,
        None,
    ];
    [
        pieces.next(),
        pieces.next(),
        pieces.next(),
        pieces.next(),
        pieces.next(),
        pieces.next(),
        pieces.next(),
    ] == wanted
}

#[test]
fn pieces_up_to_a_refusal(rt: HostRuntime) {
    assert!(rt; five().is_some_and(is_handed_out));
}

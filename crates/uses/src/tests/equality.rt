//! Values of public types that differ in one field are not equal.
use pf_bounds::Bounds;
use pf_posix::{DirectiveSpan, Stretch, WholeArgType};
use pf_text::Refusal;
use pf_values::{ArgType, RefusalKind};

#[test]
fn numbers_that_differ_are_unequal(rt: HostRuntime) {
    let bounds = Bounds {
        least: 1,
        greatest: Some(2),
    };
    let refusal = Refusal {
        kind: RefusalKind::Star,
        at: 3,
    };
    assert!(rt;
        [
            bounds == bounds,
            bounds == Bounds { least: 2, ..bounds },
            bounds
                == Bounds {
                    greatest: None,
                    ..bounds
                },
            refusal == refusal,
            refusal == Refusal { at: 4, ..refusal },
            refusal
                == Refusal {
                    kind: RefusalKind::Float,
                    ..refusal
                },
        ] == [true, false, false, true, false, false]
    );
}

#[test]
fn spans_that_differ_are_unequal(rt: HostRuntime) {
    let span = DirectiveSpan {
        begin: 1,
        end: 3,
        argument: 0,
        width_argument: None,
        precision_argument: None,
        kind: WholeArgType::Profile(ArgType::Int),
    };
    let stretch = Stretch {
        end: 2,
        opaque: None,
        after: 2,
    };
    assert!(rt;
        [
            span == span,
            span == DirectiveSpan { begin: 0, ..span },
            span == DirectiveSpan { end: 4, ..span },
            span == DirectiveSpan {
                argument: 1,
                ..span
            },
            span == DirectiveSpan {
                width_argument: Some(0),
                ..span
            },
            span == DirectiveSpan {
                precision_argument: Some(0),
                ..span
            },
            span == DirectiveSpan {
                kind: WholeArgType::Pointer,
                ..span
            },
            stretch == stretch,
            stretch == Stretch { end: 1, ..stretch },
            stretch
                == Stretch {
                    after: 3,
                    ..stretch
                },
        ] == [
            true, false, false, false, false, false, false, true, false, false
        ]
    );
}

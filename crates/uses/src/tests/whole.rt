//! `pf_whole`: each public call once, on texts whose answers are written down.
use crate::whole::are_alike;
use pf_compare::{CompareFault, OwnedArg};
use pf_text::{Refusal, Side, TextFault};
use pf_values::{Model, RefusalKind};
use pf_whole::{WholeVerdict, canonical, canonical_len, compare, is_canonical, same_text};
use std::alloc::Global;

// A format, and its canonical text in LP64.
static CANONICAL: [(&[u8], &[u8]); 12] = [
    (b"%i: %-08.6lf (%5c)", b"%d: %-8f (    %c)"),
    (b"%.0s%5d%.0s%p%.0s", b"%.0s%5d%.0s%p%.0s"),
    (b"%+ .01Lf", b"%+.1Lf"),
    (b"%-0*.*d", b"%-*.*d"),
    (b"%C%S%zn", b"%lc%ls%ln"),
    (b"%.6a%.6e%.0g", b"%.6a%e%.1g"),
    (b"%.0s%m%.0s%i", b"%.0s%m%.0s%d"),
    (b"%p%5.2f%-*s%i%.*s%Lg%m%n", b"%p%5.2f%-*s%d%.*s%Lg%m%n"),
    (b"%.0s%f%.6f%2.f%-f", b"%.0s%f%f%2.0f%f"),
    (b"%*hhd%*jd%.0g%.00f", b"%*hhd%*ld%.1g%.0f"),
    (b"100%%", b"100%%"),
    (b"", b""),
];

// Two formats, and whether they are alike in LP64.
static PAIRS: [(&[u8], &[u8], bool); 10] = [
    (b"%.6f%%%i", b"%f%%%d", true),
    (b"%f%05d%p", b"%f%.5d%p", false),
    (b"%5.0s%f", b"%.0s%f", false),
    (b"%*d", b"%d%d", false),
    (b"%d%f", b"%d%e", false),
    (b"%f%d", b"%f", false),
    (b"%5c%n", b"    %c%n", true),
    (b"%d", b"%i", true),
    (b"%d", b"%5d", false),
    (b"%.0s%m", b"%m%.0s", false),
];

fn has_canonical(alloc: Global, text: &[u8], wanted: &[u8]) -> bool {
    match canonical(alloc, Model::Lp64, text) {
        Ok(out) => out.as_slice() == wanted
            && canonical_len(Model::Lp64, text) == Ok(wanted.len() as u128),
        Err(_) => false,
    }
}

#[test]
fn each_format_has_its_canonical_text(rt: HostRuntime) {
    for (text, wanted) in &CANONICAL {
        assert!(rt; has_canonical(rt.alloc(), text, wanted));
        assert!(rt; is_canonical(Model::Lp64, text) == Ok(text == wanted));
    }
}

#[test]
fn each_two_formats_are_alike_or_not(rt: HostRuntime) {
    for (first, second, alike) in &PAIRS {
        assert!(rt; same_text(Model::Lp64, first, second) == Ok(*alike));
        assert!(rt; are_alike(Model::Lp64, first, second) == *alike);
    }
}

#[test]
fn what_is_refused(rt: HostRuntime) {
    let numbered = Refusal {
        kind: RefusalKind::Numbered,
        at: 2,
    };
    assert!(rt; canonical_len(Model::Lp64, b"%1$d") == Err(numbered));
    assert!(rt; same_text(Model::Lp64, b"%f", b"%1$d") == Err((Side::Second, numbered)));
    assert!(rt;
        match canonical(rt.alloc(), Model::Lp64, b"%1$d") {
            Err(TextFault::Refused(refusal)) => refusal == numbered,
            _ => false,
        }
    );
}

// An argument that a comparison shows.
#[derive(Clone, Copy)]
enum Shown {
    Any,
    Int(i32),
    EmptyStr,
}

fn is_shown_as(argument: &Option<OwnedArg>, wanted: Shown) -> bool {
    match (argument, wanted) {
        (None, Shown::Any) => true,
        (Some(OwnedArg::Int(n)), Shown::Int(wanted)) => *n == wanted,
        (Some(OwnedArg::Str(bytes)), Shown::EmptyStr) => bytes.as_bytes().bytes().is_empty(),
        _ => false,
    }
}

fn shows(alloc: Global, first: &[u8], second: &[u8], wanted: &[Shown]) -> bool {
    match compare(alloc, Model::Lp64, first, second) {
        Ok(WholeVerdict::Args(shown)) => {
            shown.len() == wanted.len()
                && shown
                    .iter()
                    .zip(wanted)
                    .all(|(argument, it)| is_shown_as(argument, *it))
        }
        _ => false,
    }
}

#[test]
fn arguments_that_print_differently(rt: HostRuntime) {
    let in_the_middle = [Shown::Any, Shown::Int(-1), Shown::Any];
    assert!(rt; shows(rt.alloc(), b"%f%05d%p", b"%f%.5d%p", &in_the_middle));
    let in_the_first = [Shown::Int(-1), Shown::Any, Shown::Int(0)];
    assert!(rt; shows(rt.alloc(), b"%05d%f%05d", b"%.5d%f%.5d", &in_the_first));
    assert!(rt;
        shows(
            rt.alloc(),
            b"%5.0s%f",
            b"%.0s%f",
            &[Shown::EmptyStr, Shown::Any]
        )
    );
    let neutral_in_each = [Shown::Int(0), Shown::Any, Shown::EmptyStr];
    assert!(rt; shows(rt.alloc(), b"%05d%f%5.0s", b"%.5d%f%.0s", &neutral_in_each));
}

// Two formats, the data model in which they are compared, and what differs in it.
static DIFFERENCES: [(&[u8], &[u8], Model, Differs); 9] = [
    (b"%.6f%%%i", b"%f%%%d", Model::Lp64, Differs::Nowhere),
    (b"%zn", b"%ln", Model::Lp64, Differs::Nowhere),
    (b"%zn", b"%ln", Model::Ilp32, Differs::InTypes(0)),
    (b"%f%d", b"%f", Model::Lp64, Differs::InTypes(1)),
    (b"%*d", b"%d%d", Model::Lp64, Differs::InCalls(0)),
    (b"%d%d", b"%*d", Model::Lp64, Differs::InCalls(0)),
    (b"%d%d%d%e", b"%d%*d%f", Model::Lp64, Differs::InCalls(1)),
    (b"%d%f", b"%d%e", Model::Lp64, Differs::InCalls(1)),
    (b"%*.*d%d", b"%*d%*d", Model::Lp64, Differs::InCalls(0)),
];

#[derive(Clone, Copy)]
enum Differs {
    Nowhere,
    InTypes(u64),
    InCalls(u64),
}

#[test]
fn the_first_type_or_call_that_differs(rt: HostRuntime) {
    for (first, second, model, differs) in &DIFFERENCES {
        assert!(rt;
            match (compare(rt.alloc(), *model, first, second), *differs) {
                (Ok(WholeVerdict::Same), Differs::Nowhere) => true,
                (Ok(WholeVerdict::Types(index)), Differs::InTypes(wanted)) => index == wanted,
                (Ok(WholeVerdict::Directives(index)), Differs::InCalls(wanted)) => index == wanted,
                _ => false,
            }
        );
    }
}

#[test]
fn a_refused_format_is_not_compared(rt: HostRuntime) {
    let numbered = Refusal {
        kind: RefusalKind::Numbered,
        at: 2,
    };
    assert!(rt;
        match compare(rt.alloc(), Model::Lp64, b"%1$d", b"%q") {
            Err(CompareFault::Refused(side, refusal)) => {
                (side, refusal) == (Side::First, numbered)
            }
            _ => false,
        }
    );
}

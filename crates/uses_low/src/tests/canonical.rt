//! `pf_canon`: each public call, and streams that are cut. The program and the C library bring the rows of
//! `tests/rows/canonical_formats.jsonl` to their canonical texts.
use pf_canon::laws::{canonical_is_its_own, one_canonical_text_means_the_same};
use pf_canon::{canonical, canonical_len, is_canonical, same_text};
use pf_values::Model;
use std::alloc::Global;
use steps::streams_agree;
use streams::streams_to;

mod callers;
mod devices;
mod short_texts;
mod steps;
mod streams;

// A format and its canonical text in LP64, with `¦` between them.
static FORMATS: &str = "\
¦
%i¦%d
%-12d¦%-11d 
%20d¦         %11d
100%%¦100%%
%-5c%.0s!¦%c    !%.0s
a%.0s%5cb%.0s¦a    %.0s%cb%.0s
%.0s%5.0sx¦     x%.0s%.0s
Total: %i of %u%%¦Total: %d of %u%%
%d%i%u%s¦%d%d%u%s";

// A proof holds all of a table that its function names, so one function names it.
fn formats() -> &'static str {
    FORMATS
}

// Whether `canonical` gives this text of a format.
fn is_canonical_of(alloc: Global, model: Model, format: &[u8], text: &[u8]) -> bool {
    match canonical(alloc, model, format) {
        Ok(out) => out.as_slice() == text,
        Err(_) => false,
    }
}

// Whether a text is the canonical one, and its own, and differs from any other.
fn is_brought_to(alloc: Global, format: &[u8], text: &[u8]) -> bool {
    is_canonical_of(alloc, Model::Lp64, format, text)
        && is_canonical_of(alloc, Model::Lp64, text, text)
        && is_canonical(Model::Lp64, text) == Ok(true)
        && is_canonical(Model::Lp64, format) == Ok(format == text)
        && canonical_len(Model::Lp64, format) == Ok(text.len() as u128)
        && same_text(Model::Lp64, format, text) == Ok(true)
}

// Whether each call gives the text of a row, and each stream of the format, however it is cut.
fn is_right(alloc: Global, row: &'static str) -> bool {
    match row.split_once('¦') {
        Some((format, text)) => {
            is_brought_to(alloc, format.as_bytes(), text.as_bytes())
                && streams_to(alloc, format.as_bytes(), text.as_bytes())
        }
        None => false,
    }
}

#[test]
fn each_format_has_its_canonical_text(rt: HostRuntime) {
    for row in formats().lines() {
        assert!(rt; is_right(rt.alloc(), row), "{row}");
    }
}

// The two data models part ways: `%zu` is `%lu` in the one, and `%u` in the other.
fn is_by_model(alloc: Global) -> bool {
    is_canonical_of(alloc, Model::Ilp32, b"%zu", b"%u")
        && is_canonical(Model::Ilp32, b"%lu") == Ok(true)
        && canonical_len(Model::Ilp32, b"%20ld") == Ok(14)
        && same_text(Model::Lp64, b"%zu", b"%lu") == Ok(true)
        && same_text(Model::Ilp32, b"%zu", b"%lu") == Ok(false)
        && streams_agree(Model::Ilp32, b"%zu", b"%u")
        && streams_agree(Model::Ilp32, b"%zu", b"%lu")
        && streams_agree(Model::Lp64, b"%20d%y", b"         %11d")
        && streams_agree(Model::Lp64, b"%s", b"%s%y")
}

#[test]
fn the_data_model_counts(rt: HostRuntime) {
    assert!(rt; is_by_model(rt.alloc()));
}

#[test]
fn laws_can_be_called() {
    canonical_is_its_own();
    one_canonical_text_means_the_same();
}

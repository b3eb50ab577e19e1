//! The calls of the C library `libfmtcanon`. `include/fmtcanon.h` declares them.
#![tactic(auto)]

mod argument_types;
mod arguments;
mod byte_counts;
mod canonical_texts;
mod comparison;
mod directives;
mod interface;
mod laws;
mod literals;
mod relations;
mod rendering;
mod specifications;
mod words;

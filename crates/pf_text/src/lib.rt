//! Formats of the C function `printf`: which items a text has, or where and why it is rejected; how
//! directives are spelled; the types of the arguments that a format takes.
//!
//! The road through a text in memory is `walk`: a loop over `Walk::find`, with a step by the part readers of
//! `specification` for the item that it stops at. Where a text is rejected or comes in blocks, `scanner` goes on
//! byte by byte. The shortcuts, and what a call costs with one and without, in instructions over 4,000 formats:
//! `marks` finds each `%` of a short text in one step (`check`: 134 and 170), `passed` knows items that need no
//! look at their parts (bare ones in `check`: 134 and 217; canonical ones in `canonical`: 227 and 463),
//! `checking` and `known_argument_types` need no scanner (`check`: 134 and 754; `types`: 233 and 424),
//! `specification` reads one flag or none first (`check`: 134 and 154), and `search` looks at 64 bytes before
//! `memchr2` (`check`: 134 and 142).
#![tactic(auto)]

mod argument_types;
mod checking;
mod known_argument_types;
pub mod laws;
mod letters;
mod literal_runs;
mod marks;
mod passed;
mod pieces;
mod refusals;
mod scanner;
mod search;
mod signatures;
mod specification;
mod spelling;
mod state;
mod walk;

pub use argument_types::signature;
pub use checking::{check, items_end, items_end_from, refusal_at};
pub use known_argument_types::known_types;
pub use letters::{conv_of, flag_of, modifier_of};
pub use passed::{Bare, Canonical, Nothing, Passed, Percents};
pub use pieces::{Piece, Pieces};
pub use refusals::{Refusal, Side, TextFault};
pub use scanner::{Scanner, Step};
pub use search::literal_len;
pub use signatures::Signature;
pub use specification::{
    FoundDirective, digits_at, directive_at, flags_at, modifier_at, number_at, spelled_at,
};
pub use spelling::{Spelling, push_flags, push_number, spell};
pub use walk::{Walk, within_limit};

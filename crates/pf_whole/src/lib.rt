//! Formats of the whole language of `printf`: compared by what the directives of the profile print,
//! and by the calls that all other directives and `%m` make.
//!
//! `languages` says what a format has that the profile lacks, so `canonical_texts` and `same_text` are one line
//! for each call of `pf_canon`. The other calls go from stretch to stretch of the profile (`next_stretch` of `pf_posix`).
#![tactic(auto)]

mod calls;
mod canonical_texts;
mod comparison;
mod directives;
mod languages;
pub mod laws;
mod needless;
mod parts;
mod spelling;
mod verbatim_directives;
mod verdicts;

pub use canonical_texts::{canonical, canonical_len, check, is_canonical};
pub use comparison::same_text;
pub use directives::normal_directive;
pub use languages::Whole;
pub use needless::{NeedlessParts, needless_parts};
pub use parts::{Part, PartSet};
pub use verdicts::{WholeVerdict, compare};

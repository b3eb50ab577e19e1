//! Canonical texts: the one spelling to which each printf format is brought.
//!
//! The one road is `items`, which puts the canonical text of items into a `sink`: of a text in memory, up to where
//! a language has an item of its own whose spelling changes (`languages`; others it passes), and of the whole
//! items in a block of a stream (`transducer`). A canonical text in memory is the format itself (`verbatim_front`), or
//! is made in 128 bytes of the stack (`short_texts`), or in a vector of its length, which is counted before:
//! `canonical_in` chooses, and `canonical_of_len` is for who has counted.
//!
//! The shortcuts, and what a call costs with one and without, in instructions over 4,000 formats: `verbatim_front`
//! sees bytes that need no change (`canonical`: 227 and 312), `changed_directives` knows directives that change
//! little (227 and 287), `short_texts` needs no vector (228 and 269) and no count (489 and 543), `plain_canonical`
//! decides most texts (`is_canonical`: 185 and 251), `comparison` sees equal texts (`same` of a format and itself:
//! 229 and 1,206), `common_prefix` compares 16 bytes in one step (227 and 382), and `early_difference` sees
//! different bytes and types (`same` of formats with other first bytes: 408 and 666).
#![tactic(auto)]

mod canonical_bytes;
mod canonical_slices;
mod canonical_texts;
mod changed_directives;
mod common_prefix;
mod comparison;
mod copy;
mod early_difference;
mod faults;
mod items;
mod languages;
pub mod laws;
pub mod limits;
mod output;
mod plain_canonical;
mod short_texts;
mod sink;
mod transducer;
mod verbatim_front;

pub use canonical_bytes::CanonBytes;
pub use canonical_texts::{
    canonical, canonical_in, canonical_len, canonical_len_in, canonical_of_len, is_canonical,
    is_canonical_in,
};
pub use comparison::{same_stream, same_text, same_text_in};
pub use copy::{canonical_stream, copy_canonical};
pub use faults::{CopyFault, SideFault, StreamFault};
pub use languages::{Language, OtherItem, Profile, check_in};
pub use pf_text::{Side, TextFault as CanonFault};
pub use short_texts::{Room, ShortText};
pub use verbatim_front::VerbatimFront;

//! String literals of C source: the bytes that they denote, and the literal of some bytes.
#![tactic(auto)]

mod cursor;
mod decoding;
mod encoded_parts;
mod encoding;
mod faults;
pub mod laws;
mod notations;
mod offsets;
mod search;
mod spellings;
mod tokens;

pub use decoding::decode;
pub use encoding::{encode, encoded_len};
pub use faults::{LiteralFault, LiteralKind, LiteralRefusal};
pub use offsets::source_offset;

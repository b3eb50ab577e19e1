//! What printf formats are made of: flags, length modifiers, conversions, directives, argument
//! types and arguments, the kinds of refusal, readers and writers that count their failures, and
//! some that fail. `specs/meaning/` defines what a format means.
#![tactic(auto)]

mod arguments;
mod bases;
mod conversions;
mod counted;
mod data_model;
pub mod devices;
mod directives;
mod flags;
pub mod laws;
mod lengths;
pub mod limits;
mod models;
pub mod padding;
mod refusals;
mod types;
mod value_kinds;
mod writes;

pub use arguments::{Arg, CBytes};
pub use bases::{Alternative, Base};
pub use conversions::{Conv, Kind};
pub use counted::Counted;
pub use directives::Directive;
pub use flags::{Flag, FlagSet};
pub use lengths::Length;
pub use models::Model;
pub use refusals::RefusalKind;
pub use types::ArgType;
pub use value_kinds::ValueKind;
pub use writes::{ShortWrite, write_bytes};

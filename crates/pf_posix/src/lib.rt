//! The argument types of formats in the whole language of POSIX `fprintf`, with the conversion `b`
//! of C23: with numbered arguments, `*`, floating and wide conversions, `p` and `n`, and the `%m` of `syslog`.
//! Formats without numbered arguments, split at what the profile lacks.
//!
//! The road is `specifications`, which reads a specification part by part, up to its end or to where it can't go
//! on. `argument_types` goes from one to the next, `listings` does so and lists them, and `numbered` keeps the
//! arguments of numbered ones in a table.
//! The shortcuts, and what a call costs with one and without, in instructions over 4,000 formats: `argument_types`
//! reads conversions alone and directives of the profile first (`arguments`: 243 and 455), and `comparison`
//! compares the bytes of two formats first (`fits`: 256 and 462).
#![tactic(auto)]

mod argument_types;
mod comparison;
mod conversions;
mod directive_spans;
mod fetches;
pub mod laws;
mod letters;
mod listings;
mod long_texts;
mod numbered;
mod opaque_directives;
mod specification_spans;
mod specification_walk;
mod specifications;
mod stretches;
mod types;
mod types_in_order;
mod undefined_combinations;
mod unnumbered;

pub use argument_types::{arguments, arguments_vec};
pub use comparison::{fits, fits_fewer};
pub use conversions::{Floating, WholeConv, WholeLength};
pub use directive_spans::{DirectiveSpan, directives, directives_vec};
pub use fetches::integer_length;
pub use opaque_directives::{Opaque, OpaqueAmount, OpaqueDirective, is_opaque};
pub use specification_spans::{PartOffsets, SpecificationSpan};
pub use specification_walk::SpecificationWalk;
pub use specifications::{conversion_at, modifier_at};
pub use stretches::{Stretch, next_stretch};
pub use types::WholeArgType;
pub use undefined_combinations::undefined_as;
pub use unnumbered::opaque_at;

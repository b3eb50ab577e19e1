//! The smallest and the largest number of bytes that a format prints, over all arguments of its types.
//!
//! The road is `formats`, over the pieces of a text. The one shortcut is `known_bounds`, by the walk and in 64
//! bits: over 4,000 formats `bounds` costs 264 instructions with it, and 646 without.
#![tactic(auto)]

mod directives;
mod formats;
mod known_bounds;
pub mod laws;
mod sums;
mod tallies;

pub use formats::bounds;
pub use sums::Bounds;

//! The bytes that directives and formats print (C11 7.21.6.1).
#![tactic(auto)]

mod argument_lists;
mod arguments;
mod buffers;
mod digits;
mod directives;
mod faults;
mod fields;
mod filling;
mod format_parts;
mod formats;
mod gathered_text;
mod gathering;
mod integer_parts;
mod integers;
mod outputs;
mod progress;
mod rendered_vec;
mod text_length;
mod texts;
mod values;

pub use arguments::FormatArgument;
pub use buffers::render_into;
pub use directives::render_one;
pub use faults::{RenderFault, RenderVecFault, WriteFault};
pub use formats::render;
pub use integer_parts::{IntegerParts, SignOrPrefix};
pub use rendered_vec::render_vec;
pub use values::Value;

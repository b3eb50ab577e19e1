//! One printf directive reduced to constant padding and a normal core: for every argument the
//! directive prints the spaces, the zeros, what the core prints, and the spaces after it.
#![tactic(auto)]

mod changes;
mod integers;
mod normal_directives;
mod normality;
mod numbers;
mod padding;
mod reduction;
mod results;
mod signs;
mod texts;

pub use changes::{Change, change_of};
pub use normality::is_normal;
pub use reduction::reduce;
pub use results::{Core, Normal, Reduced};

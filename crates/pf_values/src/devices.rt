//! A writer and a reader over memory, which fail where their caller says. They allocate nothing of
//! their own.

mod cut;
mod feed;

pub use cut::Cut;
pub use feed::Feed;

//! Uses of the libraries up to `pf_canon`, as a caller writes them. Each is proved from the contracts of the calls alone,
//! and with no proof file, except one that cites a law.
#![tactic(auto)]

pub mod canonical_texts;
pub mod directives;
pub mod formats;
#[cfg(test)]
mod tests;

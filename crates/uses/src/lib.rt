//! Uses of the libraries, as a caller writes them. Each is proved from the contracts of the calls
//! alone, and with no proof file, except those that cite a law.
#![tactic(auto)]

pub mod argument_types;
pub mod meaning;
pub mod sizes;
#[cfg(test)]
mod tests;
pub mod whole;

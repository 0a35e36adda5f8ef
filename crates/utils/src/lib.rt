#![tactic(auto)]

pub mod array2;
pub mod error;

#![tactic(auto)]

pub mod held;
pub mod laws;

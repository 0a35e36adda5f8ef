#![tactic(auto)]

pub mod emptying;
pub mod laws;
pub mod tallying;

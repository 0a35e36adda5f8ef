#![tactic(auto)]

pub mod asking;
pub mod call;
pub mod law;
pub mod perform;
pub mod replay;

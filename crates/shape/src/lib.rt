#![tactic(auto)]

pub mod heightfield3;

#![tactic(auto)]

pub mod cell;
pub mod feature_id;
pub mod status;
pub mod vids;

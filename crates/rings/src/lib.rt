#![tactic(auto)]

pub mod cell_rings;
pub mod place;
pub mod radial;
pub mod reach;

#![tactic(auto)]

pub mod boxes;
pub mod corners;
pub mod triangles;
pub mod widening;

#![tactic(auto)]

pub mod aabb;
pub mod axis;
pub mod heights;
pub mod lines;
pub mod scale;
pub mod triangle;
pub mod vector;

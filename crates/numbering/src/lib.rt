#![tactic(auto)]

pub mod seams;
pub mod size;

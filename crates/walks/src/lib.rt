#![tactic(auto)]

pub mod columns;
pub mod numbered;
pub mod standing;
pub mod walk;

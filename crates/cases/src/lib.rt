#![tactic(auto)]

#[cfg(test)]
mod boxes;
#[cfg(test)]
mod limits;
pub mod worked;

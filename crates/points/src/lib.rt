#![tactic(auto)]

pub mod cell_search;

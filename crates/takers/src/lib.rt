#![tactic(auto)]

pub mod band;
pub mod count;
pub mod cut_list;
pub mod mark_sheet;
pub mod taker;
pub mod triangle;

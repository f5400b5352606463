// Totals: how many weights were recorded in each class, and what they weigh together.
#![tactic(auto)]

pub mod row;
pub mod table;

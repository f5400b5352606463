// Recipes: the numbers of a filling or sorting order, which can only be made right.
#![tactic(auto)]

mod checks;
pub mod draft;
pub mod fill;
mod items;
pub mod numbers;
pub mod sort;

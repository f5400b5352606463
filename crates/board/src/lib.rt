// Output boards: eight outputs, O0 to O7, driven by bytes in which bit n is On.
#![tactic(auto)]

pub mod kind;
pub mod output;
pub mod relay;
pub mod transistor;

// Exact numbers: what every layer above counts with.
#![tactic(auto)]

pub mod largest;
pub mod rounding;
pub mod signed;

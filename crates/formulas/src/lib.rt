// The formulas of document 01: what the rows of a contract come to, its risks, its delta book, its charges, its line of figures,
// and the credits of the intercontract table.
#![tactic(auto)]

pub mod amount;
pub mod books;
pub mod charges;
pub mod line;
pub mod pairs;
mod risk;
pub mod rows;
pub mod tables;

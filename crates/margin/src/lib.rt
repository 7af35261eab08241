// The questions that an account answers: its figures, the delta books, and who paid for what in them.
#![tactic(auto)]

pub mod asking;
mod books;
pub mod everything;
pub mod lists;
pub mod numbers;
pub mod over;
pub mod positions;
mod tabled;
mod uses;

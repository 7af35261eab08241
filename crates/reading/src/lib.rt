// What the programs share: the account file on standard input, and lines of numbers.
#![tactic(auto)]

pub mod input; // input.rt: the file on standard input
pub mod lines; // lines.rt: lines of numbers on standard output
pub mod numbers; // numbers.rt: numbers of an answer

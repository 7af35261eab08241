// The account file: accepted, or refused at its first fault, and the parts of an accepted one.
#![tactic(auto)]

pub mod answers; // answers.rt: what comes back
pub mod stretches; // stretches.rt: records as they stand in a file
pub mod rates; // rates.rt: the rates as a table, and what a row comes to by it
pub mod parts; // parts.rt: the parts of a file
pub mod notes; // notes.rt: what the check notes of the records passed
pub mod listed; // listed.rt: refusal 7
mod order; // order.rt: refusals 4 and 8
pub mod limits; // limits.rt: refusal 9
mod passing; // passing.rt: runs of sound records
pub mod fault; // fault.rt: the first refusal of a record
pub mod conversions; // conversions.rt: refusals 14 and 15
pub mod check; // check.rt: the check of a file
pub mod accounts; // accounts.rt: an account, in one file or in two
pub mod lent; // lent.rt: an account as it is lent
pub mod noon; // noon.rt: the verdict on a noon file and the morning's, and a contract's prompts

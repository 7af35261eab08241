// One record of an account file: its fields, and the refusals that it gets by itself.
#![tactic(auto)]

pub mod bytes; // bytes.rt: little-endian numbers, two's complement where signed
mod layout; // layout.rt: where each field starts
pub mod fields; // fields.rt: the fields of each kind
mod unused; // unused.rt: the bytes that no field of a kind covers
mod ranges; // ranges.rt: what each field may hold
pub mod refusals; // refusals.rt: 3, 5 and 6

// The questions over plain bytes, over a held file, and over a noon file joined to the morning's.
#![tactic(auto)]

mod checked; // checked.rt: over a file that is checked
pub mod held; // held.rt: one accepted file held while several questions are put to it
pub mod noon; // noon.rt: over the joined account of two files, and the call
pub mod plain; // plain.rt: over plain bytes, checked first

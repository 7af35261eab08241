// One ticket more (request 2026-07): what one more row does to an account, answered without going through the other rows.
#![tactic(auto)]

pub mod counts; // counts.rt: how many rows each contract has, and what a ticket is refused for
pub mod kept; // kept.rt: a kept account, with tickets added and withdrawn, and its answers
pub mod ask; // ask.rt: the margin before and after a ticket, over plain bytes

// The spread steps: which prompts pay for which spread.
// One engine serves both tables of spreads, the interprompt spreads of a contract and the intercontract spreads.
#![tactic(auto)]

pub mod accepted;
pub mod book;
pub mod deltas;
pub mod plain;
pub mod pools;
pub mod stepwise;
pub mod touches;

// The most that a table and its prompts hold: places with a count beside them, since nothing here is allocated.
pub const MOST_PROMPTS: usize = 32;

pub const MOST_SPREADS: usize = 32;

// A delta, in ten-thousandths of a lot, long above zero and short below.
#[derive(Clone, Copy)]
pub struct Delta(pub i64);

// A number of spreads, in ten-thousandths.
#[derive(Clone, Copy)]
pub struct Spreads(pub u64);

// A leg: the tier that it draws on, its side (1 = A, 2 = B) and its ratio. The side is a byte, since `accepted` answers of any.
#[derive(Clone, Copy)]
pub struct Leg {
    pub tier: u8,
    pub side: u8,
    pub ratio: u16,
}

// A spread: its first `legs` legs, 2 or 3, and whether their ratios are tenths. In this order no bytes lie between its fields.
#[derive(Clone, Copy)]
pub struct Spread {
    pub legs: u8,
    pub tenths: bool,
    pub leg: [Leg; 3],
}

// A table of spreads in order of priority: its first `count` spreads.
#[derive(Clone, Copy)]
pub struct Table {
    pub count: usize,
    pub spread: [Spread; MOST_SPREADS],
}

// Prompts, the earliest day of a tier first: the first `count` tiers and net deltas.
#[derive(Clone, Copy)]
pub struct Prompts {
    pub count: usize,
    pub tier: [u8; MOST_PROMPTS],
    pub net: [Delta; MOST_PROMPTS],
}

use crate::fields::SCENARIOS;

// Document 01's table of kinds, as amended: the byte at which each field starts. "Byte 0 is the kind", and byte 1 names a
// contract in kinds 1 to 5.
pub(crate) const KIND: usize = 0;

pub(crate) const CONTRACT: usize = 1;

// Of a contract.
pub(crate) const SHORT_OPTION_RATE: usize = 4;

pub(crate) const UNIT: usize = 8;

// Of a prompt; the day is also that of a row.
pub(crate) const TIER: usize = 2;

pub(crate) const DAY: usize = 4;

pub(crate) const SPREAD_RATE: usize = 8;

pub(crate) const OUTRIGHT_RATE: usize = 12;

// Of a row.
pub(crate) const ROW_TYPE: usize = 2;

pub(crate) const CURRENCY: usize = 3;

pub(crate) const STRIKE: usize = 8;

pub(crate) const LOTS: usize = 12;

pub(crate) const DELTA: usize = 16;

pub(crate) const VALUE: usize = 20;

pub(crate) const FIRST_LOSS: usize = 24;

// Of an interprompt spread: the first leg's, each later one 4 bytes on.
pub(crate) const LEG_COUNT: usize = 2;

pub(crate) const RATE_PER_SPREAD: usize = 4;

pub(crate) const LEG_TIER: usize = 8;

pub(crate) const LEG_SIDE: usize = 9;

pub(crate) const LEG_RATIO: usize = 10;

// Of an intercontract spread.
pub(crate) const SECOND_CONTRACT: usize = 2;

pub(crate) const PERCENT: usize = 3;

pub(crate) const FIRST_RATIO: usize = 4;

pub(crate) const SECOND_RATIO: usize = 6;

pub(crate) const TENTHS: usize = 8;

// Of a currency rate.
pub(crate) const RATE_CURRENCY: usize = 1;

pub(crate) const SPOT_RATE: usize = 4;

pub(crate) const ADJUSTMENT: usize = 8;

// Bytes that no field covers: before the first field of four bytes, byte 2 in a contract and a currency rate, and byte 3 in
// every kind that has neither percent nor currency there.
pub(crate) const EARLY_GAP: usize = 2;

pub(crate) const GAP: usize = 3;

// And those from here on.
pub(crate) const CONTRACT_END: usize = UNIT + 2;

pub(crate) const PROMPT_END: usize = OUTRIGHT_RATE + 4;

pub(crate) const ROW_END: usize = FIRST_LOSS + 4 * SCENARIOS;

pub(crate) const TWO_LEGS_END: usize = LEG_TIER + 4 * 2;

pub(crate) const THREE_LEGS_END: usize = LEG_TIER + 4 * 3;

pub(crate) const ENTRY_END: usize = TENTHS + 1;

pub(crate) const RATE_END: usize = ADJUSTMENT + 1;

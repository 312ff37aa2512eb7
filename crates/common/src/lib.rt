// Numbers of document 01 that several crates use: specs/Limits. The other definitions and laws are in specs/ and proofs/.
#![tactic(auto)]

// Parties and banks.
pub const CREDITORS: u64 = 256;

pub const DEBTORS: u64 = 4096;

pub const BANKS: u64 = 64;

// The largest number of a mandate or a collection.
pub const NUMBER_LIMIT: u64 = 999999999;

// The largest amount of a collection, in cents.
pub const AMOUNT_LIMIT: u64 = 99999999999;

// The largest rate of a refund, in hundredths of a percent a year.
pub const RATE_LIMIT: u64 = 9999;

// The most rows that may be lent.
pub const MANDATE_ROWS: usize = 4096;

pub const COLLECTION_ROWS: usize = 16384;

// How far a position may lie on either side of 0, in cents.
pub const POSITION_LIMIT: i64 = 10000000000000000;

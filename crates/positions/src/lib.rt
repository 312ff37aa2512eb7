// Signed positions, what an event of money posts to them, and compensation: document 01, "Postings", and document 02, (b) and (g).
// Every public function answers for any input: an error says where there is nothing to post to, and None where there is no value.
#![tactic(auto)]

pub mod amounts;
pub mod compensation;
pub mod posting;

use std::error::Error;
use std::fmt;

// The largest compensation, in cents.
pub const COMPENSATION_LIMIT: u64 = 277472249997;

// Why nothing was posted. The table is as it was.
#[derive(Clone, Copy, Debug, PartialEq, Eq)]
pub enum PostError {
    NoEntry,
    TooLarge,
}

impl fmt::Display for PostError {
    ghost use Rattle.std.specs.Prelude.{Some};
    ghost use Rattle.positions.specs.Answers.{error_words};

    ghost output = { λ e. Some (error_words e) };

    fn fmt<W: fmt::Write>(&self, f: &mut fmt::Formatter<W>) -> fmt::Result {
        match self {
            PostError::NoEntry => write!(f, "no entry"),
            PostError::TooLarge => write!(f, "too large"),
        }
    }
}

impl Error for PostError {}

// The amounts that one event posts: to the debtor, the creditor, the bank of each and total compensation.
#[derive(Clone, Copy, Debug, PartialEq, Eq)]
pub struct Postings {
    pub debtor: i64,
    pub creditor: i64,
    pub dbank: i64,
    pub cbank: i64,
    pub compensation: i64,
}

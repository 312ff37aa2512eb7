// What a program in another language lends beside the tables: cells of a state, of cents and of an event, flat as C has them and no
// structs. What stands where: specs/Cells.
// Every function answers for any number of cells: a cell that is not there reads 0, and nothing is stored to it.
#![tactic(auto)]

pub mod reading;
pub mod writing;

// The cells of a state.
pub const LATEST: usize = 0;

pub const MANDATES_USED: usize = 1;

pub const COLLECTIONS_USED: usize = 2;

pub const LINES: usize = 3;

pub const FILLED: usize = 4;

pub const WRITTEN: usize = 5;

pub const PAST: usize = 6;

// The cells of cents.
pub const COMPENSATION: usize = 0;

pub const FIGURE: usize = 1;

// What a text leaves: the lines answered, the bytes of the partial line, the bytes written, and the lines that were not taken.
#[derive(Clone, Copy, Debug, PartialEq, Eq, Default)]
pub struct Counts {
    pub lines: u64,
    pub partial: usize,
    pub written: usize,
    pub past: u64,
}

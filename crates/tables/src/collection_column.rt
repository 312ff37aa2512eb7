// The columns of a collection: specs/CollectionColumn.
pub const NUMBER: usize = 0;

pub const CREDITOR: usize = 1;

pub const DEBTOR: usize = 2;

pub const CBANK: usize = 3;

pub const DBANK: usize = 4;

pub const AMOUNT: usize = 5;

pub const DUE: usize = 6;

// The tag of the state.
pub const STATE: usize = 7;

pub const DAY: usize = 8;

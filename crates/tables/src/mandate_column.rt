// The columns of a mandate: specs/MandateColumn.
pub const NUMBER: usize = 0;

pub const CREDITOR: usize = 1;

pub const DEBTOR: usize = 2;

pub const BANK: usize = 3;

pub const SIGNED: usize = 4;

pub const CODE: usize = 5;

pub const STANDING: usize = 6;

pub const FIRST: usize = 7;

pub const PRESENTED: usize = 8;

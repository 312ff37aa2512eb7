// The limits of an event's fields: specs/Limits.
ghost use Rattle.std.specs.Prelude.{◌≡◌, ◌&&◌, eqb, find};
ghost use Rattle.refusals.specs.Refusals.{answer_number};
ghost use Rattle.events.specs.Limits.{within, row_of, second_fits, row_fits, fields_fit, checked, limit_number};

use crate::Event;
use calendar::gregorian::in_range;
use common::{AMOUNT_LIMIT, BANKS, CREDITORS, DEBTORS, NUMBER_LIMIT, RATE_LIMIT};
use refusals::{Refusal, ensure};

// A range of numbers, both ends included. It is copied with its row, as a RangeInclusive is not.
#[derive(Clone, Copy, Debug, PartialEq, Eq)]
pub struct Range {
    pub low: u64,
    pub high: u64,
}

// What the second date may be.
#[derive(Clone, Copy, Debug, PartialEq, Eq)]
pub enum SecondDate {
    // 0
    NoSecond,
    // a date in range
    Dated,
    // a date in range and not after the event date
    NotAfter,
}

// The limits of the events of one kind with one of some codes: numbers, since those of any event are held against them.
#[derive(Clone, Copy, Debug, PartialEq, Eq)]
pub struct Row {
    pub kind: u64,
    pub codes: Range,
    pub mandate: Range,
    pub a: Range,
    pub b: Range,
    pub c: Range,
    pub amount: Range,
    pub second: SecondDate,
}

pub const LAST_KIND: u64 = 10;

const KINDS: Range = Range {
    low: 1,
    high: LAST_KIND,
};

// The ranges of the fields. First a field that the kind and code do not name.
const UNNAMED: Range = Range { low: 0, high: 0 };

const CREDITOR: Range = Range {
    low: 1,
    high: CREDITORS,
};

const DEBTOR: Range = Range {
    low: 1,
    high: DEBTORS,
};

const BANK: Range = Range {
    low: 1,
    high: BANKS,
};

// A mandate or a collection.
const NUMBER: Range = Range {
    low: 1,
    high: NUMBER_LIMIT,
};

const CENTS: Range = Range {
    low: 1,
    high: AMOUNT_LIMIT,
};

const RATE: Range = Range {
    low: 0,
    high: RATE_LIMIT,
};

const MANDATE_CODES: Range = Range { low: 0, high: 1 };

const SEQUENCE_CODES: Range = Range { low: 0, high: 3 };

const REFUND_CODES: Range = Range { low: 0, high: 1 };

const ONLY_0: Range = Range { low: 0, high: 0 };

const ONLY_1: Range = Range { low: 1, high: 1 };

// A row that names no field.
const NO_FIELD: Row = Row {
    kind: 0,
    codes: UNNAMED,
    mandate: UNNAMED,
    a: UNNAMED,
    b: UNNAMED,
    c: UNNAMED,
    amount: UNNAMED,
    second: SecondDate::NoSecond,
};

// A row that names a collection alone.
const ONLY_COLLECTION: Row = Row {
    a: NUMBER,
    ..NO_FIELD
};

// The table of specs/Limits: a row for each kind and its codes.
const TABLE: [Row; 11] = [
    Row {
        kind: 1,
        a: CREDITOR,
        b: BANK,
        ..NO_FIELD
    },
    Row {
        kind: 2,
        codes: MANDATE_CODES,
        mandate: NUMBER,
        a: CREDITOR,
        b: DEBTOR,
        c: BANK,
        second: SecondDate::NotAfter,
        ..NO_FIELD
    },
    // A new debtor bank.
    Row {
        kind: 3,
        codes: ONLY_0,
        mandate: NUMBER,
        c: BANK,
        ..NO_FIELD
    },
    // A new creditor.
    Row {
        kind: 3,
        codes: ONLY_1,
        mandate: NUMBER,
        a: CREDITOR,
        ..NO_FIELD
    },
    Row {
        kind: 4,
        mandate: NUMBER,
        ..NO_FIELD
    },
    Row {
        kind: 5,
        codes: SEQUENCE_CODES,
        mandate: NUMBER,
        a: NUMBER,
        amount: CENTS,
        second: SecondDate::Dated,
        ..NO_FIELD
    },
    Row {
        kind: 6,
        ..ONLY_COLLECTION
    },
    Row {
        kind: 7,
        ..ONLY_COLLECTION
    },
    Row {
        kind: 8,
        ..ONLY_COLLECTION
    },
    Row {
        kind: 9,
        codes: REFUND_CODES,
        a: NUMBER,
        b: RATE,
        ..NO_FIELD
    },
    Row {
        kind: 10,
        ..ONLY_COLLECTION
    },
];

impl Range {
    // Whether x lies in the range.
    fn contains(self, x: u64) -> bool
        ensures { result ≡ within self x }
    {
        self.low <= x && x <= self.high
    }
}

// The first of some rows that is of a kind and a code.
fn row_in(rows: &[Row], kind: u64, code: u64) -> Option<Row>
    ensures { result ≡ find (λ r. eqb r.kind kind && within r.codes code) rows.now }
{
    rows.iter()
        .copied()
        .find(|r| r.kind == kind && r.codes.contains(code))
}

// The limits of the events of a kind with a code.
#[tactic(auto, using(crate::proofs::Laws::Limits::row_in_find), unfolding(crate::specs::Limits::row_of, crate::specs::Limits::table))]
pub fn row_of(kind: u64, code: u64) -> Option<Row>
    ensures { result ≡ row_of kind code }
{
    row_in(&TABLE, kind, code)
}

impl SecondDate {
    // Whether s is a second date for an event of the date d.
    fn fits(self, d: u64, s: u64) -> bool
        ensures { result ≡ second_fits self d s }
    {
        match self {
            SecondDate::NoSecond => s == 0,
            SecondDate::Dated => in_range(s),
            SecondDate::NotAfter => in_range(s) && s <= d,
        }
    }
}

impl Row {
    // Whether the fields of e, kind, date and code apart, are within the limits of the row.
    #[tactic(auto, unfolding(crate::specs::Limits::row_fits))]
    fn fits(self, e: Event) -> bool
        ensures { result ≡ row_fits self e }
    {
        self.mandate.contains(e.mandate)
            && self.a.contains(e.a)
            && self.b.contains(e.b)
            && self.c.contains(e.c)
            && self.amount.contains(e.amount)
            && self.second.fits(e.date, e.second)
    }
}

// Whether the fields of e are within the limits of its kind and code.
#[tactic(auto, unfolding(crate::specs::Limits::fields_fit))]
fn fields_fit(e: Event) -> bool
    ensures { result ≡ fields_fit e }
{
    row_of(e.kind, e.code).is_some_and(|row| row.fits(e))
}

// Refusals 3, 4 and 5, in this order.
#[tactic(auto, unfolding(crate::specs::Limits::checked, crate::specs::Limits::limit_number))]
pub fn check(e: Event) -> Result<(), Refusal>
    ensures answer { result ≡ checked e }
    ensures number { answer_number result ≡ limit_number e }
{
    ensure(KINDS.contains(e.kind), Refusal::UnknownKind)?;
    ensure(in_range(e.date), Refusal::BadDate)?;
    ensure(fields_fit(e), Refusal::BadField)
}

// Document 01, "Records", in lent memory: mandates and collections in rows of cells, lookup by number, creditors and their banks.
// The lender gives any sizes and any content, and every public function answers for them. Rows are cells one behind the other with the
// number of those used beside them, no Vec of records: there is no heap, and C lends them so.
#![tactic(auto)]

ghost use Rattle.std.specs.Prelude.{◌≡◌};
ghost use Rattle.tables.specs.Ledger.{ledger_of, ledger_in};

pub mod collection_column;
pub mod creditors;
pub mod lookup;
pub mod mandate_column;
pub mod rows;

// What is lent beside the tables: the latest date, the rows used and the total compensation in cents.
#[derive(Clone, Copy, Debug, Default, PartialEq, Eq)]
pub struct Header {
    pub latest: u64,
    pub mandates: usize,
    pub collections: usize,
    pub compensation: i64,
}

// All that is lent, to be read.
#[derive(Clone, Copy)]
pub struct BookRef<'a> {
    pub header: Header,
    pub mandates: &'a [u64],
    pub collections: &'a [u64],
    pub creditors: &'a [u64],
    pub creditor_positions: &'a [i64],
    pub debtor_positions: &'a [i64],
    pub bank_positions: &'a [i64],
}

// All that is lent, to be changed. That a call leaves the loans as they were is each call's own promise (`SameLoans`): it speaks of the book
// before and after, which no field of it can.
#[derive(Drop)]
pub struct BookMut<'a> {
    pub header: Header,
    pub mandates: &'a mut [u64],
    pub collections: &'a mut [u64],
    pub creditors: &'a mut [u64],
    pub creditor_positions: &'a mut [i64],
    pub debtor_positions: &'a mut [i64],
    pub bank_positions: &'a mut [i64],
}

impl<'a> BookMut<'a> {
    // The same, to be read.
    pub fn view(&self) -> BookRef<'_>
        ensures { ledger_of result ≡ ledger_in self.now }
    {
        BookRef {
            header: self.header,
            mandates: self.mandates,
            collections: self.collections,
            creditors: self.creditors,
            creditor_positions: self.creditor_positions,
            debtor_positions: self.debtor_positions,
            bank_positions: self.bank_positions,
        }
    }
}

#[derive(Clone, Copy, Debug, PartialEq, Eq)]
pub enum Standing {
    Live,
    Closed,
    Cancelled,
}

// A mandate: `bank` is the debtor's, `signed` the signing date, `code` 0 recurrent and 1 one-off, `first` whether FRST
// is due, `presented` the kept due last presented, 0 if none. The code is a number, no enum: lent memory may hold any, and a change of the
// mandate keeps it.
#[derive(Clone, Copy)]
pub struct Mandate {
    pub number: u64,
    pub creditor: u64,
    pub debtor: u64,
    pub bank: u64,
    pub signed: u64,
    pub code: u64,
    pub standing: Standing,
    pub first: bool,
    pub presented: u64,
}

#[derive(Clone, Copy, Debug, PartialEq, Eq)]
pub enum Undoing {
    Return,
    Refund,
    Reversal,
}

// The state of a collection, with its day.
#[derive(Clone, Copy, Debug, PartialEq, Eq)]
pub enum State {
    Presented,
    Rejected,
    Settled(u64),
    Undone(u64, Undoing),
}

// A collection: parties and both banks as they were at presentation, the amount in cents, the kept due.
#[derive(Clone, Copy)]
pub struct Collection {
    pub number: u64,
    pub creditor: u64,
    pub debtor: u64,
    pub cbank: u64,
    pub dbank: u64,
    pub amount: u64,
    pub due: u64,
    pub state: State,
}

// The rules of document 01 over the whole ledger, and the theorem over every list of events: see specs/ and proofs/.
// Here are only the types of what is asked and handed on, with the conversions of codes and kinds.
#![tactic(auto)]

use calendar::CalendarDays;
use refusals::Refusal;
use tables::{Mandate, Undoing};

// How a mandate changes, an amend with code 0 and 1, and a cancel.
#[derive(Clone, Copy)]
pub enum Change {
    NewBank(u64),
    NewCreditor(u64),
    Cancel,
}

// A collection to be presented: the numbers of its mandate and its own, the amount in cents, the requested due date, the
// sequence code. It is a number, no enum: an action is told of any event, one with any code too.
#[derive(Clone, Copy)]
pub struct Presentation {
    pub mandate: u64,
    pub collection: u64,
    pub amount: u64,
    pub requested: u64,
    pub code: u64,
}

// Whether the debtor had authorised what is refunded.
#[derive(Clone, Copy)]
pub enum Authorisation {
    Authorised,
    Unauthorised,
}

// What the code of a refund tells: 0 authorised, any other unauthorised.
impl From<u64> for Authorisation {
    ghost use Rattle.std.specs.Prelude.{◌≡◌};
    ghost use Rattle.model.specs.Actions.{authorisation};

    ghost from_gives = { λ code a. a ≡ authorisation code };

    fn from(code: u64) -> Authorisation {
        match code {
            0 => Authorisation::Authorised,
            _ => Authorisation::Unauthorised,
        }
    }
}

// How a settled collection is undone, a refund at its rate.
#[derive(Clone, Copy)]
pub enum Way {
    ByReturn,
    ByRefund(u64, Authorisation),
    ByReversal,
}

// What the state of an undone collection keeps of it.
impl From<Way> for Undoing {
    ghost use Rattle.std.specs.Prelude.{◌≡◌};
    ghost use Rattle.model.specs.Effects.{undoing_of};

    ghost from_gives = { λ way u. u ≡ undoing_of way };

    fn from(way: Way) -> Undoing {
        match way {
            Way::ByReturn => Undoing::Return,
            Way::ByRefund(..) => Undoing::Refund,
            Way::ByReversal => Undoing::Reversal,
        }
    }
}

// What becomes of a collection.
#[derive(Clone, Copy)]
pub enum Treatment {
    Settle,
    Reject,
    Undo(Way),
}

// What an event asks for: a creditor with its bank, a mandate, a change of the mandate of a number, a collection to be presented, or
// the collection of a number to be treated.
#[derive(Clone, Copy)]
pub enum Action {
    AddCreditor(u64, u64),
    AddMandate(Mandate),
    ChangeMandate(u64, Change),
    Collect(Presentation),
    Treat(u64, Treatment),
}

// What an accepted event hands on to its caller: a collect the days that its due date slid, no other event anything.
#[derive(Clone, Copy, Debug, PartialEq, Eq)]
pub enum HandedOn {
    Nothing,
    Slid(CalendarDays),
}

// What a query asks for and a listing tells of: the position of a creditor, a debtor or a bank, or the total compensation.
#[derive(Clone, Copy)]
pub enum Figure {
    Creditor,
    Debtor,
    Bank,
    Compensation,
}

// The kind of a figure.
impl From<Figure> for u64 {
    ghost use Rattle.std.specs.Prelude.{◌≡◌};
    ghost use Rattle.model.specs.Step.{kind_of};

    ghost from_gives = { λ figure kind. kind ≡ kind_of figure };

    fn from(figure: Figure) -> u64 {
        match figure {
            Figure::Creditor => 1,
            Figure::Debtor => 2,
            Figure::Bank => 3,
            Figure::Compensation => 4,
        }
    }
}

// The figure of a kind: no other number is a kind.
impl TryFrom<u64> for Figure {
    type Error = Refusal;

    ghost use Rattle.std.specs.Prelude.{◌≡◌};
    ghost use Rattle.model.specs.Step.{figure_told};

    ghost try_from_gives = { λ kind r. r ≡ figure_told kind };

    fn try_from(kind: u64) -> Result<Figure, Refusal> {
        match kind {
            1 => Ok(Figure::Creditor),
            2 => Ok(Figure::Debtor),
            3 => Ok(Figure::Bank),
            4 => Ok(Figure::Compensation),
            _ => Err(Refusal::BadField),
        }
    }
}

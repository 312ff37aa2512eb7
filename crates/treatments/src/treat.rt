// The call for events 6 to 10: what the verdict says is written.
ghost use Rattle.std.specs.Prelude.{true, ◌≡◌};
ghost use Rattle.positions.specs.Positions.{in_limit, position_limit};
ghost use Rattle.tables.specs.Ledger.{ledger_in, SameLoans};
ghost use Rattle.model.specs.declared.HandedOn.TheVariants.{Nothing};
ghost use Rattle.model.specs.Step.{verdict_by};
ghost use Rattle.checking.specs.Calls.{Done};
ghost use Rattle.treatments.specs.Treatments.{held, postable, header_after, pay_answer, pay_effect, Treated};

use crate::verdicts::{Verdict, verdict_at};
use checking::found_row;
use model::{HandedOn, Treatment};
use positions::Postings;
use positions::posting::{in_limit, is_entry, position_of, post};
use refusals::Refusal;
use tables::rows::put_record;
use tables::{BookMut, Collection, Header};

// Whether an amount can be posted to a number.
fn is_held(positions: &[i64], number: u64, amount: i64) -> bool
    ensures { result ≡ held positions.now number amount }
{
    is_entry(positions, number) & in_limit(position_of(positions, number)) & in_limit(amount)
}

// Whether the amounts can be posted to the parties and banks of a collection.
fn is_postable(book: &BookMut, k: Collection, p: Postings) -> bool
    ensures { result ≡ postable k p book.now.header.compensation book.now.creditor_positions.now book.now.debtor_positions.now book.now.bank_positions.now }
{
    is_held(book.creditor_positions, k.creditor, p.creditor)
        & is_held(book.debtor_positions, k.debtor, p.debtor)
        & is_held(book.bank_positions, k.dbank, p.dbank)
        & is_held(book.bank_positions, k.cbank, p.cbank)
        & in_limit(book.header.compensation)
        & in_limit(p.compensation)
}

// The header after an event of a date that adds cents to the total compensation.
fn header_after(header: Header, date: u64, cents: i64) -> Header
    requires { (in_limit position_limit header.compensation ≡ true) × (in_limit position_limit cents ≡ true) }
    ensures { result ≡ header_after header date cents }
{
    Header {
        latest: date,
        compensation: header.compensation + cents,
        ..header
    }
}

// Writes the collection to its row and posts the amounts to its parties and banks.
fn write(book: &mut BookMut, date: u64, row: usize, k: Collection, p: Postings)
    requires { postable k p book.old.header.compensation book.old.creditor_positions.now book.old.debtor_positions.now book.old.bank_positions.now ≡ true }
    ensures loans { SameLoans book.old book.new }
    ensures paid { ledger_in book.new ≡ pay_effect row date k p (ledger_in book.old) }
{
    put_record(book.collections, row, k);
    post(book.creditor_positions, k.creditor, p.creditor).unwrap();
    post(book.debtor_positions, k.debtor, p.debtor).unwrap();
    post(book.bank_positions, k.dbank, p.dbank).unwrap();
    post(book.bank_positions, k.cbank, p.cbank).unwrap();
    book.header = header_after(book.header, date, p.compensation);
}

// Writes and posts, or refuses amounts that cannot be posted.
fn pay(
    book: &mut BookMut,
    date: u64,
    row: usize,
    k: Collection,
    p: Postings,
) -> Result<HandedOn, Refusal>
    ensures loans { SameLoans book.old book.new }
    ensures done { Done (verdict_by (pay_answer k p (ledger_in book.old)) Nothing) (ledger_in book.old) (pay_effect row date k p (ledger_in book.old)) result (ledger_in book.new) }
{
    if !is_postable(book, k, p) {
        return Err(Refusal::UnfitMemory);
    }
    write(book, date, row, k, p);
    Ok(HandedOn::Nothing)
}

// Events 6 to 10: the collection in the row that was found is treated.
pub fn treat(
    book: &mut BookMut,
    date: u64,
    t: Treatment,
    found: Option<usize>,
) -> Result<HandedOn, Refusal>
    ensures loans { SameLoans book.old book.new }
    ensures treated { Treated found (ledger_in book.old) date t result (ledger_in book.new) }
{
    match verdict_at(book, date, t, found)? {
        Verdict::Mark(k) => {
            put_record(book.collections, found_row(found), k);
            book.header.latest = date;
            Ok(HandedOn::Nothing)
        }
        Verdict::Post(k, p) => pay(book, date, found_row(found), k, p),
    }
}

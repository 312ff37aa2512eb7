// Event 1: a creditor is added with its bank.
ghost use Rattle.std.specs.Prelude.{◌≡◌, ◌-◌, ◌≤◌, length, set};
ghost use Rattle.tables.specs.Ledger.{ledger_in, SameLoans};
ghost use Rattle.records.specs.Records.{creditor_answer, CreditorAdded};

use model::HandedOn;
use refusals::{Refusal, ensure};
use tables::BookMut;
use tables::creditors::is_added;

fn judge_creditor(book: &BookMut, date: u64, number: u64) -> Result<(), Refusal>
    ensures { result ≡ creditor_answer (ledger_in book.now) date number }
{
    ensure(book.header.latest <= date, Refusal::BeforeLatest)?;
    ensure(!is_added(book.creditors, number), Refusal::AlreadyExists)?;
    let in_table = (1 <= number) & (number <= book.creditors.len() as u64);
    ensure(in_table, Refusal::DoesNotExist)
}

// The bank of a creditor of the table.
fn put_bank(creditors: &mut [u64], number: u64, bank: u64)
    requires { (1 ≤ number) × (number ≤ length creditors.old) }
    ensures { creditors.new ≡ set creditors.old (number - 1) bank }
{
    creditors[(number - 1) as usize] = bank;
}

// The creditor of a number gets its bank.
pub fn add_creditor(
    book: &mut BookMut,
    date: u64,
    number: u64,
    bank: u64,
) -> Result<HandedOn, Refusal>
    ensures loans { SameLoans book.old book.new }
    ensures added { CreditorAdded (ledger_in book.old) date number bank result (ledger_in book.new) }
{
    judge_creditor(book, date, number)?;
    put_bank(book.creditors, number, bank);
    book.header.latest = date;
    Ok(HandedOn::Nothing)
}

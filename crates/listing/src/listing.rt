// The listing of positions: specs/Listing.
ghost use Rattle.std.specs.Prelude.{◌≡◌, true, ◌+◌, ◌*◌, ◌≤◌, length};
ghost use Rattle.positions.specs.Positions.{position_limit, InLimit};
ghost use Rattle.digits.specs.Field.{pasted};
ghost use Rattle.tables.specs.Ledger.{ledger_of};
ghost use Rattle.model.specs.Step.{kind_of};
ghost use Rattle.report.specs.Layout.{position_length, last_number, position_fits};
ghost use Rattle.listing.specs.Listing.{table_output, Listed};
ghost use Rattle.run.specs.Run.{position_output};

use common::{BANKS, CREDITORS, DEBTORS};
use fitness::fitness::is_fit;
use model::Figure;
use refusals::Refusal;
use report::layout::{POSITION, position_line};
use tables::BookRef;

// The bytes that a listing takes at most: a line for each party and bank, and one for the total.
const ROOM: usize = (CREDITORS + DEBTORS + BANKS + 1) as usize * POSITION;

// Writes the line of a position that is not 0, and gives the place behind it.
#[tactic(auto, using(crate::proofs::Laws::Listing::zero_written, crate::proofs::Laws::Listing::line_written, crate::proofs::Laws::Listing::line_long, report::proofs::Laws::Layout::position_fits_facts))]
fn list_one(out: &mut [u8], at: usize, figure: Figure, number: u64, cents: i64) -> usize
    requires { position_fits at (kind_of figure) number cents out.old ≡ true }
    ensures place { result ≡ at + length (position_output (kind_of figure) number cents) }
    ensures bytes { out.new ≡ pasted at (position_output (kind_of figure) number cents) out.old }
{
    if cents == 0 {
        return at;
    }
    let _ = position_line(out, at, u64::from(figure), number, cents);
    at + POSITION
}

// Writes the positions of a kind, from number 1 to the last of its table, and gives the place behind them.
#[tactic(auto, using(crate::proofs::Laws::Listing::table_fits))]
fn list_kind(out: &mut [u8], at: usize, figure: Figure, positions: &[i64]) -> usize
    requires { (at + length positions.now * position_length ≤ length out.old) × (length positions.now ≤ last_number) × InLimit position_limit positions.now }
    ensures place { result ≡ at + length (table_output (kind_of figure) positions.now (length positions.now)) }
    ensures bytes { out.new ≡ pasted at (table_output (kind_of figure) positions.now (length positions.now)) out.old }
{
    let mut next = at;
    for (i, cents) in positions.iter().enumerate() {
        next = list_one(out, next, figure, (i + 1) as u64, *cents);
    }
    next
}

// Writes the whole listing and gives its bytes. Memory that is not fit and a buffer without room for the longest listing
// are refused, and nothing is written.
#[tactic(auto, using(crate::proofs::Laws::Listing::listed_when, crate::proofs::Laws::Listing::listed_refused))]
pub fn list_positions(book: &BookRef, out: &mut [u8]) -> Result<usize, Refusal>
    ensures { Listed (ledger_of book.now) out.old result out.new }
{
    if !(is_fit(book) & (ROOM <= out.len())) {
        return Err(Refusal::UnfitMemory);
    }
    let debtors = list_kind(out, 0, Figure::Creditor, book.creditor_positions);
    let banks = list_kind(out, debtors, Figure::Debtor, book.debtor_positions);
    let total = list_kind(out, banks, Figure::Bank, book.bank_positions);
    let _ = position_line(
        out,
        total,
        u64::from(Figure::Compensation),
        0,
        book.header.compensation,
    );
    Ok(total + POSITION)
}

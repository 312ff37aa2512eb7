// The position query. Document 01, "Records": a kind and a number; refusals 2 and 5.
ghost use Rattle.std.specs.Prelude.{◌≡◌};
ghost use Rattle.tables.specs.Ledger.{ledger_of};
ghost use Rattle.model.specs.Step.{kind_of, in_query, figure_of};
ghost use Rattle.book.specs.Events.{Queried};

use common::{BANKS, CREDITORS, DEBTORS};
use fitness::fitness::is_fit;
use model::Figure;
use positions::posting::position_of;
use refusals::{Refusal, ensure};
use tables::BookRef;

// Refusal 5: whether there is such a number of a figure.
fn in_query(figure: Figure, number: u64) -> bool
    ensures { result ≡ in_query (kind_of figure) number }
{
    match figure {
        Figure::Creditor => (1 <= number) & (number <= CREDITORS),
        Figure::Debtor => (1 <= number) & (number <= DEBTORS),
        Figure::Bank => (1 <= number) & (number <= BANKS),
        Figure::Compensation => number == 0,
    }
}

// The cents of a figure, of a number within its limits.
fn cents_of(book: &BookRef, figure: Figure, number: u64) -> i64
    ensures { result ≡ figure_of (ledger_of book.now) (kind_of figure) number }
{
    match figure {
        Figure::Creditor => position_of(book.creditor_positions, number),
        Figure::Debtor => position_of(book.debtor_positions, number),
        Figure::Bank => position_of(book.bank_positions, number),
        Figure::Compensation => book.header.compensation,
    }
}

// The position of a creditor (kind 1), debtor (2) or bank (3), or the total compensation (4, number 0), in cents. The kind is a
// number, as C and a line have it: any may be asked for.
#[tactic(auto, using(crate::proofs::Laws::Queries::queried_unfit, crate::proofs::Laws::Queries::queried_outside))]
pub fn position(book: &BookRef, kind: u64, number: u64) -> Result<i64, Refusal>
    ensures { Queried (ledger_of book.now) kind number result }
{
    ensure(is_fit(book), Refusal::UnfitMemory)?;
    let figure = Figure::try_from(kind)?;
    ensure(in_query(figure, number), Refusal::BadField)?;
    Ok(cents_of(book, figure, number))
}

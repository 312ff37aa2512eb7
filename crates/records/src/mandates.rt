// Events 2, 3 and 4: a mandate is added, amended or cancelled.
ghost use Rattle.std.specs.Prelude.{◌≡◌, List, [], ℕ, ℤ};
ghost use Rattle.tables.specs.Rows.{mandate_at};
ghost use Rattle.model.specs.Checks.{change_names, stands_live};
ghost use Rattle.model.specs.Effects.{changed};
ghost use Rattle.model.specs.Step.{verdict_by};
ghost use Rattle.checking.specs.Calls.{used_row, found_row};
ghost use Rattle.records.specs.Records.{ledger_with, mandate_answer, MandateAdded, mandate_in, change_answer, MandateChanged};

use crate::MandatesMut;
use checking::{found_row, is_used};
use model::{Change, HandedOn};
use refusals::{Refusal, ensure};
use tables::creditors::is_added;
use tables::rows::{put_record, record_at, rows_of};
use tables::{Mandate, Standing};

pub fn is_live(standing: Standing) -> bool
    ensures { result ≡ stands_live standing }
{
    standing == Standing::Live
}

// Whether the mandate in the row that was found is there.
pub(crate) fn mandate_there(lent: &MandatesMut, found: Option<usize>) -> bool
    ensures { result ≡ used_row lent.now.mandates.now lent.now.header.mandates found }
{
    is_used(found, lent.mandates, lent.header.mandates)
}

// The mandate in the row that was found, and in the first row where none was: `mandate_there` says whether it counts.
#[tactic(auto, unfolding(tables::specs::Rows::mandate_at))]
pub(crate) fn mandate_in(lent: &MandatesMut, found: Option<usize>) -> Mandate
    ensures { result ≡ mandate_at lent.now.mandates.now (found_row found) }
{
    record_at(lent.mandates, found_row(found))
}

// Refusals 6 to 10 of a new mandate. No test reads the collections or a position, and so the clause has none.
fn judge_mandate(
    lent: &MandatesMut,
    date: u64,
    m: Mandate,
    found: Option<usize>,
) -> Result<(), Refusal>
    ensures { result ≡ mandate_answer found (ledger_with lent.now [] [] [] []) date m }
{
    ensure(lent.header.latest <= date, Refusal::BeforeLatest)?;
    ensure(found.is_none(), Refusal::AlreadyExists)?;
    ensure(is_added(lent.creditors, m.creditor), Refusal::DoesNotExist)?;
    ensure(
        lent.header.mandates < rows_of(lent.mandates),
        Refusal::NoRowLeft,
    )
}

// Event 2: the mandate goes into the next row. `found` is the row of its number.
pub fn add_mandate(
    lent: &mut MandatesMut,
    date: u64,
    m: Mandate,
    found: Option<usize>,
) -> Result<HandedOn, Refusal>
    ensures loans { lent.new.mandates.ghost_name ≡ lent.old.mandates.ghost_name }
    ensures added { (c : List ℕ) (cp dp bp : List ℤ) → MandateAdded found (ledger_with lent.old c cp dp bp) date m result (ledger_with lent.new c cp dp bp) }
{
    judge_mandate(lent, date, m, found)?;
    let used = lent.header.mandates;
    put_record(lent.mandates, used, m);
    lent.header.latest = date;
    lent.header.mandates = used + 1;
    Ok(HandedOn::Nothing)
}

// Whether the creditor that a change names, if any, exists.
fn names_added(change: Change, creditors: &[u64]) -> bool
    ensures { result ≡ change_names creditors.now change }
{
    match change {
        Change::NewBank(_) | Change::Cancel => true,
        Change::NewCreditor(a) => is_added(creditors, a),
    }
}

// Refusals 6 to 11 of a change of the mandate in the row that was found, or that mandate. No other table is read, as above.
fn judge_change(
    lent: &MandatesMut,
    date: u64,
    change: Change,
    found: Option<usize>,
) -> Result<Mandate, Refusal>
    ensures { result ≡ verdict_by (change_answer found (ledger_with lent.now [] [] [] []) date change) (mandate_in found (ledger_with lent.now [] [] [] [])) }
{
    ensure(lent.header.latest <= date, Refusal::BeforeLatest)?;
    ensure(mandate_there(lent, found), Refusal::DoesNotExist)?;
    let m = mandate_in(lent, found);
    ensure(names_added(change, lent.creditors), Refusal::DoesNotExist)?;
    ensure(is_live(m.standing), Refusal::NotLive)?;
    Ok(m)
}

#[tactic(auto, unfolding(model::specs::Effects::changed))]
fn changed_mandate(change: Change, m: Mandate) -> Mandate
    ensures { result ≡ changed change m }
{
    match change {
        Change::NewBank(bank) => Mandate {
            bank,
            first: (m.code == 0) | m.first,
            ..m
        },
        Change::NewCreditor(creditor) => Mandate { creditor, ..m },
        Change::Cancel => Mandate {
            standing: Standing::Cancelled,
            ..m
        },
    }
}

// Events 3 and 4: the mandate in the row that was found changes.
pub fn change_mandate(
    lent: &mut MandatesMut,
    date: u64,
    change: Change,
    found: Option<usize>,
) -> Result<HandedOn, Refusal>
    ensures loans { lent.new.mandates.ghost_name ≡ lent.old.mandates.ghost_name }
    ensures changed { (c : List ℕ) (cp dp bp : List ℤ) → MandateChanged found (ledger_with lent.old c cp dp bp) date change result (ledger_with lent.new c cp dp bp) }
{
    let m = judge_change(lent, date, change, found)?;
    put_record(lent.mandates, found_row(found), changed_mandate(change, m));
    lent.header.latest = date;
    Ok(HandedOn::Nothing)
}

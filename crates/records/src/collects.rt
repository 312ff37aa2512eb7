// Event 5: a collection is presented.
ghost use Rattle.std.specs.Prelude.{◌≡◌, List, [], ℤ};
ghost use Rattle.model.specs.Checks.{takes};
ghost use Rattle.model.specs.Effects.{presented_on, new_collection};
ghost use Rattle.model.specs.Step.{verdict_by};
ghost use Rattle.records.specs.Records.{ledger_with, mandate_in, collect_answer, standing_after, Collected};

use crate::MandatesMut;
use crate::mandates::{is_live, mandate_in, mandate_there};
use calendar::KeptDate;
use checking::found_row;
use deadlines::collects::{is_lapsed, is_timely, kept_due};
use model::{HandedOn, Presentation};
use refusals::{Refusal, ensure};
use std::marker::Model;
use tables::creditors::bank_of;
use tables::rows::{put_record, rows_of};
use tables::{Collection, Mandate, Standing, State};

// A presentation with its kept due and the days to it, which are worked out once. Clauses see the presentation.
#[derive(Clone, Copy)]
struct KeptPresentation {
    asked: Presentation,
    kept: KeptDate,
}

impl Model for KeptPresentation {
    ghost use Rattle.std.specs.Prelude.{◌≡◌};
    ghost use Rattle.model.specs.declared.Presentation.{Presentation};
    ghost use Rattle.model.specs.Deadlines.{kept_with_days};

    ghost Value = { Presentation };

    ghost view = { λ k. k.asked };

    ghost invariant = { λ k. k.kept ≡ kept_with_days k.asked.requested };

    ghost inverse = { λ p. record { asked = p; kept = kept_with_days p.requested } };
}

// Whether the mandate takes the sequence code, a number as in `Presentation`: 0 FRST, 1 RCUR, 2 FNAL, 3 OOFF.
fn takes_code(m: Mandate, code: u64) -> bool
    ensures { result ≡ takes m code }
{
    if m.code != 0 {
        return code == 3;
    }
    if m.first {
        return code == 0;
    }
    (code == 1) | (code == 2)
}

// The verdict on a collect: the mandate, and what is presented with its kept due. The dates are worked out only where nothing refuses before.
fn judge_collect(
    lent: &MandatesMut,
    collections: &[u64],
    date: u64,
    p: Presentation,
    mandate: Option<usize>,
    collection: Option<usize>,
) -> Result<(Mandate, KeptPresentation), Refusal>
    ensures { result ≡ verdict_by (collect_answer mandate collection (ledger_with lent.now collections.now [] [] []) date p) (mandate_in mandate (ledger_with lent.now collections.now [] [] []), p) }
{
    ensure(lent.header.latest <= date, Refusal::BeforeLatest)?;
    ensure(collection.is_none(), Refusal::AlreadyExists)?;
    ensure(mandate_there(lent, mandate), Refusal::DoesNotExist)?;
    let m = mandate_in(lent, mandate);
    ensure(
        lent.header.collections < rows_of(collections),
        Refusal::NoRowLeft,
    )?;
    ensure(is_live(m.standing), Refusal::NotLive)?;
    ensure(takes_code(m, p.code), Refusal::WrongSequence)?;
    ensure(is_timely(date, p.requested), Refusal::BadTiming)?;
    let kept = kept_due(p.requested);
    ensure(
        !is_lapsed(kept.date, m.presented, m.signed),
        Refusal::Lapsed,
    )?;
    Ok((m, KeptPresentation { asked: p, kept }))
}

// FNAL and OOFF, codes 2 and 3, close the mandate. The code is a number, as in `Presentation`.
fn standing_after(code: u64, standing: Standing) -> Standing
    ensures { result ≡ standing_after code standing }
{
    if 2 <= code {
        return Standing::Closed;
    }
    standing
}

// The mandate after the presentation: FRST clears "due", the kept due is the one last presented.
#[tactic(auto, unfolding(model::specs::Effects::presented_on))]
fn presented_on(p: KeptPresentation, m: Mandate) -> Mandate
    ensures { result ≡ presented_on p m }
{
    Mandate {
        standing: standing_after(p.asked.code, m.standing),
        first: m.first & (p.asked.code != 0),
        presented: p.kept.date,
        ..m
    }
}

// The collection, with the parties and both banks as they are now.
#[tactic(auto, unfolding(model::specs::Effects::new_collection))]
fn new_collection(creditors: &[u64], p: KeptPresentation, m: Mandate) -> Collection
    ensures { result ≡ new_collection creditors.now p m }
{
    Collection {
        number: p.asked.collection,
        creditor: m.creditor,
        debtor: m.debtor,
        cbank: bank_of(creditors, m.creditor),
        dbank: m.bank,
        amount: p.asked.amount,
        due: p.kept.date,
        state: State::Presented,
    }
}

// Event 5: the collection goes into the next row, and the mandate into its own. `mandate` and `collection` are the rows of their numbers.
// Handed on are the days that the due date slid.
pub fn collect(
    lent: &mut MandatesMut,
    collections: &mut [u64],
    date: u64,
    p: Presentation,
    mandate: Option<usize>,
    collection: Option<usize>,
) -> Result<HandedOn, Refusal>
    ensures loans { lent.new.mandates.ghost_name ≡ lent.old.mandates.ghost_name }
    ensures collected { (cp dp bp : List ℤ) → Collected mandate collection (ledger_with lent.old collections.old cp dp bp) date p result (ledger_with lent.new collections.new cp dp bp) }
{
    let (m, presented) = judge_collect(lent, collections, date, p, mandate, collection)?;
    let used = lent.header.collections;
    let c = new_collection(lent.creditors, presented, m);
    put_record(
        lent.mandates,
        found_row(mandate),
        presented_on(presented, m),
    );
    put_record(collections, used, c);
    lent.header.latest = date;
    lent.header.collections = used + 1;
    Ok(HandedOn::Slid(presented.kept.slid))
}

// The verdict on an event of kind 6 to 10: refusals 6 to 17 in their order, 2 for amounts that no fit table has, or all that is to be written. It
// reads alone.
ghost use Rattle.std.specs.Prelude.{◌≡◌, cond, Some, None};
ghost use Rattle.std.specs.Option.{is_some, unwrap_or};
ghost use Rattle.model.specs.Checks.{is_presented, is_settled, settled_on, day_treated, state_fits, due_treated, time_treated};
ghost use Rattle.model.specs.Effects.{state_after, treated as treatedBy};
ghost use Rattle.tables.specs.Ledger.{ledger_in};
ghost use Rattle.tables.specs.Rows.{collection_at};
ghost use Rattle.checking.specs.Calls.{used_row, found_row};
ghost use Rattle.treatments.specs.Treatments.{post_verdict, go_verdict, verdict_on, verdict_at};

use crate::undoing::undone;
use calendar::target::is_business_day;
use checking::{found_row, is_used};
use deadlines::undoings::is_in_time;
use model::Treatment;
use positions::Postings;
use positions::amounts::settlement;
use refusals::{Refusal, ensure};
use tables::rows::record_at;
use tables::{BookMut, Collection, State, Undoing};

// The verdict where nothing refuses: write the collection to its row, alone or with the amounts to post.
#[derive(Clone, Copy)]
pub enum Verdict {
    Mark(Collection),
    Post(Collection, Postings),
}

// Refusal 7.
fn day_fits(t: Treatment, date: u64) -> bool
    ensures { result ≡ day_treated t date }
{
    match t {
        Treatment::Settle | Treatment::Undo(_) => is_business_day(date),
        Treatment::Reject => true,
    }
}

fn is_presented(s: State) -> bool
    ensures { result ≡ is_presented s }
{
    s == State::Presented
}

fn is_settled(s: State) -> bool
    ensures { result ≡ is_settled s }
{
    matches!(s, State::Settled(_))
}

// The settled day. 0 of a collection that is not settled, as the rules have it; refusal 15 comes before what would ask for it.
fn settled_on(s: State) -> u64
    ensures { result ≡ settled_on s }
{
    match s {
        State::Settled(day) => day,
        State::Presented | State::Rejected | State::Undone(_, _) => 0,
    }
}

// Refusal 15.
fn state_fits(t: Treatment, s: State) -> bool
    ensures { result ≡ state_fits t s }
{
    match t {
        Treatment::Settle | Treatment::Reject => is_presented(s),
        Treatment::Undo(_) => is_settled(s),
    }
}

// Refusal 16.
fn due_fits(t: Treatment, due: u64, date: u64) -> bool
    ensures { result ≡ due_treated t due date }
{
    match t {
        Treatment::Settle => due <= date,
        Treatment::Reject | Treatment::Undo(_) => true,
    }
}

// Refusal 17.
fn time_fits(t: Treatment, s: State, date: u64) -> bool
    ensures { result ≡ time_treated t s date }
{
    match t {
        Treatment::Settle | Treatment::Reject => true,
        Treatment::Undo(way) => is_in_time(way, settled_on(s), date),
    }
}

fn state_after(t: Treatment, date: u64) -> State
    ensures { result ≡ state_after t date }
{
    match t {
        Treatment::Settle => State::Settled(date),
        Treatment::Reject => State::Rejected,
        Treatment::Undo(way) => State::Undone(date, Undoing::from(way)),
    }
}

// The collection in its new state.
#[tactic(auto, unfolding(model::specs::Effects::treated))]
fn treated(t: Treatment, date: u64, k: Collection) -> Collection
    ensures { result ≡ treatedBy t date k }
{
    Collection {
        state: state_after(t, date),
        ..k
    }
}

// The verdict to post; no row of a fit table has amounts outside their limits, at a rate within its own.
fn post_verdict(k: Collection, p: Option<Postings>) -> Result<Verdict, Refusal>
    ensures { result ≡ post_verdict k p }
{
    let amounts = p.ok_or(Refusal::UnfitMemory)?;
    Ok(Verdict::Post(k, amounts))
}

// The verdict on a collection that no test refuses.
fn go_verdict(t: Treatment, date: u64, k: Collection) -> Result<Verdict, Refusal>
    ensures { result ≡ go_verdict t date k }
{
    let next = treated(t, date, k);
    match t {
        Treatment::Settle => post_verdict(next, settlement(k.amount)),
        Treatment::Reject => Ok(Verdict::Mark(next)),
        Treatment::Undo(way) => {
            post_verdict(next, undone(way, k.amount, settled_on(k.state), date))
        }
    }
}

// The verdict on the collection, if there is one; if not, `any` counts for nothing. The last day is worked out only where nothing refuses before.
pub fn verdict_on(
    latest: u64,
    date: u64,
    t: Treatment,
    collection: Option<Collection>,
) -> Result<Verdict, Refusal>
    ensures { (any : Collection) → result ≡ verdict_on latest date t (is_some collection) (unwrap_or collection any) }
{
    ensure(latest <= date, Refusal::BeforeLatest)?;
    ensure(day_fits(t, date), Refusal::NotBusinessDay)?;
    let k = collection.ok_or(Refusal::DoesNotExist)?;
    ensure(state_fits(t, k.state), Refusal::WrongState)?;
    ensure(due_fits(t, k.due, date), Refusal::BeforeDue)?;
    ensure(time_fits(t, k.state, date), Refusal::AfterLastDay)?;
    go_verdict(t, date, k)
}

// The collection in the row that was found, if that is a used one.
#[tactic(auto, unfolding(tables::specs::Rows::collection_at))]
fn collection_in(book: &BookMut, found: Option<usize>) -> Option<Collection>
    ensures { result ≡ cond (used_row book.now.collections.now book.now.header.collections found) (Some (collection_at book.now.collections.now (found_row found))) None }
{
    let there = is_used(found, book.collections, book.header.collections);
    there.then(|| record_at(book.collections, found_row(found)))
}

// The verdict on the collection in the row that was found.
pub(crate) fn verdict_at(
    book: &BookMut,
    date: u64,
    t: Treatment,
    found: Option<usize>,
) -> Result<Verdict, Refusal>
    ensures { result ≡ verdict_at found (ledger_in book.now) date t }
{
    verdict_on(book.header.latest, date, t, collection_in(book, found))
}

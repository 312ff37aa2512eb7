// The kept due, when a collect comes in time, and when its mandate is lapsed.
ghost use Rattle.std.specs.Prelude.{◌≡◌, not, ◌&&◌, ◌+◌, ltb};
ghost use Rattle.calendar.specs.Target.{first_open};
ghost use Rattle.model.specs.Deadlines.{kept_with_days, timely, lapsed_for};

use calendar::gregorian::Day;
use calendar::periods::{days_after, is_after, months_after};
use calendar::target::{first_open_day, kept, last_business_day_before};
use calendar::{CalendarDays, KeptDate, Months};

// The most calendar days from the event date to the requested date.
const DAYS_AHEAD: u64 = 14;

// Of so many days in a row one is a business day: a break is a weekend and two closing days at the most.
const OPEN_WITHIN: u64 = 5;

// The months after which a mandate lapses.
const LAPSE_MONTHS: u64 = 36;

// What stands for the kept due where there is no date to be kept, as the rules have it: from a date in range there is one.
const NO_DATE: KeptDate = KeptDate {
    date: 0,
    slid: CalendarDays(0),
};

// The first business day on or after the requested date, and the calendar days to it.
#[tactic(auto, using(model::proofs::Laws::Handed::kept_both))]
pub fn kept_due(requested: u64) -> KeptDate
    ensures { result ≡ kept_with_days requested }
{
    kept(requested).unwrap_or(NO_DATE)
}

// Whether a business day on or after the day lies before the due day. Then the day is not after the last business day
// before the due day.
#[tactic(auto, using(calendar::proofs::Laws::BusinessDays::first_open_from, calendar::proofs::Laws::BusinessDays::first_open_near))]
fn is_early(day: Day, due: Day) -> bool
    ensures { result ≡ ltb (first_open day) due }
{
    if due <= day {
        return false;
    }
    if day.number() + OPEN_WITHIN <= due.number() {
        return true;
    }
    first_open_day(day) < due
}

// Refusal 13, by the dates.
#[tactic(auto, unfolding(model::specs::Deadlines::timely))]
fn is_timely_by_dates(date: u64, requested: u64) -> bool
    ensures { result ≡ timely date requested }
{
    !is_after(requested, days_after(date, CalendarDays(DAYS_AHEAD)))
        & !is_after(date, last_business_day_before(kept_due(requested).date))
}

// Refusal 13, by the days of the calendar.
fn is_timely_by_days(day: Day, asked: Day) -> bool
    ensures { result ≡ not (ltb (day + 14) asked) && ltb (first_open day) (first_open asked) }
{
    if day.number() + DAYS_AHEAD < asked.number() {
        return false;
    }
    is_early(day, first_open_day(asked))
}

// Refusal 13: whether a collect of the date comes in time for the requested date. By their days, but for the first of the calendar and
// what is no date.
#[tactic(auto, using(crate::proofs::Laws::Collects::timely_days))]
pub fn is_timely(date: u64, requested: u64) -> bool
    ensures { result ≡ timely date requested }
{
    match (Day::of(date), Day::of(requested)) {
        (Some(day), Some(asked)) if OPEN_WITHIN <= asked.number() => is_timely_by_days(day, asked),
        _ => is_timely_by_dates(date, requested),
    }
}

// Refusal 14: whether a mandate is lapsed for a collect of this kept due.
#[tactic(auto, unfolding(model::specs::Deadlines::lapse_end))]
pub fn is_lapsed(due: u64, presented: u64, signed: u64) -> bool
    ensures { result ≡ lapsed_for due presented signed }
{
    let start = if presented == 0 { signed } else { presented };
    is_after(due, months_after(start, Months(LAPSE_MONTHS)))
}

// Periods: specs/Periods.
ghost use Rattle.std.specs.Prelude.{◌≡◌, ◌≤◌, ◌<◌};
ghost use Rattle.calendar.specs.DayNumber.{date_of};
ghost use Rattle.calendar.specs.Target.{open_after};
ghost use Rattle.calendar.specs.Periods.{days_after, days_between, business_days_after, day_of_month_count, months_after, period_end, is_after};

use crate::gregorian::{Day, Year};
use crate::target::first_open_day;
use crate::{BusinessDays, CalendarDays, Months, Period, gregorian};

// The months of the years 0 to 2199.
const MONTHS: u64 = 26400;

// The date n calendar days after a date.
#[tactic(auto, using(crate::proofs::Laws::Rules::of_days_after))]
pub fn days_after(x: u64, n: CalendarDays) -> Option<u64>
    ensures { result ≡ days_after n x }
{
    let d = gregorian::day_number(x)?;
    gregorian::date_of(d.checked_add(n.0)?)
}

// The calendar days from the date x to the date y, which is not before it.
#[tactic(auto, using(crate::proofs::Laws::Rules::of_days_between))]
pub fn days_between(x: u64, y: u64) -> Option<CalendarDays>
    ensures { result ≡ days_between x y }
{
    let from = gregorian::day_number(x)?;
    let to = gregorian::day_number(y)?;
    to.checked_sub(from).map(CalendarDays)
}

// The date of the n-th business day after a day.
#[tactic(auto, using(crate::proofs::Laws::Rules::of_open_after))]
fn open_after(day: Day, n: u64) -> Option<u64>
    ensures { result ≡ date_of (open_after n day) }
{
    let mut at = day;
    for _ in 0..n {
        at = first_open_day(Day::at(at.number() + 1)?);
    }
    Some(at.date())
}

// The date of the n-th business day after a date.
#[tactic(auto, using(crate::proofs::Laws::Rules::of_business_days_after))]
pub fn business_days_after(x: u64, n: BusinessDays) -> Option<u64>
    ensures { result ≡ business_days_after n x }
{
    open_after(Day::of(x)?, n.0)
}

// The day d of the month that a count t of months leads to, or that month's last day.
#[tactic(auto, using(crate::proofs::Laws::Rules::of_day_of_month))]
fn day_of_month(t: u64, d: u64) -> u64
    requires { (24000 ≤ t) × (t < 26400) × (d ≤ 31) }
    ensures { result ≡ day_of_month_count t d }
{
    let y = t / 12;
    let m = t % 12 + 1;
    let last = Year(y).last_of(m);
    let first = y * 10000 + m * 100;
    if d <= last { first + d } else { first + last }
}

// The date n months after a date.
#[tactic(auto, using(crate::proofs::Laws::Rules::of_months_after))]
pub fn months_after(x: u64, n: Months) -> Option<u64>
    ensures { result ≡ months_after n x }
{
    if !gregorian::is_date(x) {
        return None;
    }
    let t = (x / 10000 * 12 + (x / 100 % 100 - 1)).checked_add(n.0)?;
    if t < MONTHS {
        return Some(day_of_month(t, x % 100));
    }
    None
}

// The end of a period that starts on the date x: months first, then calendar days, then business days.
#[tactic(auto, using(crate::proofs::Laws::Rules::of_period_end))]
pub fn period_end(x: u64, p: Period) -> Option<u64>
    ensures { result ≡ period_end p x }
{
    let month = months_after(x, p.months)?;
    let day = Day::of_date(month).number().checked_add(p.days.0)?;
    open_after(Day::at(day)?, p.business.0)
}

// Whether the date x comes after one that was worked out.
pub fn is_after(x: u64, limit: Option<u64>) -> bool
    ensures { result ≡ is_after x limit }
{
    limit.is_some_and(|last| last < x)
}

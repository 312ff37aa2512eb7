// How long there is time to undo a settled collection.
ghost use Rattle.std.specs.Prelude.{◌≡◌};
ghost use Rattle.model.specs.Deadlines.{period as periodIn, core, period_of, last_day, in_time};

use calendar::periods::{is_after, period_end};
use calendar::{BusinessDays, CalendarDays, Months, Period};
use model::{Authorisation, Way};

fn period(months: u64, days: u64, business: u64) -> Period
    ensures { result ≡ periodIn months days business }
{
    Period {
        months: Months(months),
        days: CalendarDays(days),
        business: BusinessDays(business),
    }
}

// The period of the Core scheme in which there is time.
fn period_of(way: Way) -> Period
    ensures { result ≡ period_of core way }
{
    match way {
        Way::ByReturn => period(0, 0, 5),
        Way::ByRefund(_, Authorisation::Authorised) => period(0, 56, 2),
        Way::ByRefund(_, Authorisation::Unauthorised) => period(13, 30, 4),
        Way::ByReversal => period(0, 0, 5),
    }
}

// The last day, from the settled day.
#[tactic(auto, unfolding(model::specs::Deadlines::last_day))]
fn last_day(way: Way, settled: u64) -> Option<u64>
    ensures { result ≡ last_day way settled }
{
    period_end(settled, period_of(way))
}

// Refusal 17: whether the date is not after the last day.
pub fn is_in_time(way: Way, settled: u64, date: u64) -> bool
    ensures { result ≡ in_time way settled date }
{
    !is_after(date, last_day(way, settled))
}

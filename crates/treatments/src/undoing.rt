// What undoing a settled collection posts.
ghost use Rattle.std.specs.Prelude.{◌≡◌};
ghost use Rattle.calendar.specs.Periods.{days_between};
ghost use Rattle.treatments.specs.Treatments.{refund_after, undone_of};

use calendar::periods::days_between;
use model::Way;
use positions::Postings;
use positions::amounts::{refunded, reversed};
use positions::compensation::compensation;

// The postings of a refund, with the compensation by the rule of its date.
fn refund(amount: u64, rate: u64, settled: u64, date: u64) -> Option<Postings>
    ensures { result ≡ refund_after date amount rate (days_between settled date) }
{
    let days = days_between(settled, date)?;
    let cents = compensation(date, amount, rate, days.0)?;
    refunded(amount, cents)
}

// The postings of an undoing.
pub fn undone(way: Way, amount: u64, settled: u64, date: u64) -> Option<Postings>
    ensures { result ≡ undone_of way amount settled date }
{
    match way {
        Way::ByReturn | Way::ByReversal => reversed(amount),
        Way::ByRefund(rate, _) => refund(amount, rate, settled, date),
    }
}

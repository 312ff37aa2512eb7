// Compensation, specs/Compensation, and the products by which it is worked out, specs/Products.
ghost use Rattle.std.specs.Prelude.{◌≡◌, ◌<◌};
ghost use Rattle.positions.specs.Compensation.{parts_of_cent, interest_bound, half_up, half_even, rounded, compensation_of};
ghost use Rattle.positions.specs.Products.{RateDaysCall, RateDaysAmountCall};

use common::{AMOUNT_LIMIT, RATE_LIMIT};
use refusals::Refusal;
use std::cmp::Ordering;

// The most days.
const DAYS_LIMIT: u64 = 999;

// The parts of a cent in which interest is worked out.
const PARTS_OF_CENT: u64 = 3600000;

// The first date of a refund whose half cent goes to the even one.
const EVEN_FROM: u64 = 20260101;

// The product of days and rate, as it goes into the interest; refused 5 outside their limits.
#[tactic(auto, unfolding(crate::specs::Products::rate_days, crate::specs::Products::rate_days_answer))]
pub fn rate_days(days: u64, rate: u64) -> Result<u64, Refusal>
    ensures { RateDaysCall days rate result }
{
    (days <= DAYS_LIMIT && rate <= RATE_LIMIT)
        .then(|| days * rate)
        .ok_or(Refusal::BadField)
}

// The product of days, rate and the amount of a row, which is the interest; refused 5 outside their limits.
#[tactic(auto, unfolding(crate::specs::Products::rate_days, crate::specs::Products::rate_days_amount, crate::specs::Products::rate_days_answer, crate::specs::Products::rate_days_amount_answer))]
pub fn rate_days_amount(days: u64, rate: u64, amount: u64) -> Result<u64, Refusal>
    ensures { RateDaysAmountCall days rate amount result }
{
    let product = rate_days(days, rate)?;
    (1 <= amount && amount <= AMOUNT_LIMIT)
        .then(|| product * amount)
        .ok_or(Refusal::BadField)
}

// Parts of a cent in whole cents, a half going up.
#[tactic(auto, unfolding(crate::specs::Compensation::half_up))]
fn half_up(parts: u64) -> u64
    requires { parts < interest_bound }
    ensures { result ≡ half_up parts parts_of_cent }
{
    (2 * parts + PARTS_OF_CENT) / (2 * PARTS_OF_CENT)
}

// Parts of a cent in whole cents, a half going to the even one.
#[tactic(auto, unfolding(crate::specs::Compensation::half_even, crate::specs::Compensation::even_of))]
fn half_even(parts: u64) -> u64
    requires { parts < interest_bound }
    ensures { result ≡ half_even parts parts_of_cent }
{
    let cents = parts / PARTS_OF_CENT;
    match (2 * (parts % PARTS_OF_CENT)).cmp(&PARTS_OF_CENT) {
        Ordering::Less => cents,
        Ordering::Equal => cents + cents % 2,
        Ordering::Greater => cents + 1,
    }
}

// Parts of a cent in whole cents, by the rule of a refund's date.
#[tactic(auto, unfolding(crate::specs::Compensation::rounded))]
fn rounded(date: u64, parts: u64) -> u64
    requires { parts < interest_bound }
    ensures { result ≡ rounded date parts parts_of_cent }
{
    if date < EVEN_FROM {
        half_up(parts)
    } else {
        half_even(parts)
    }
}

// The compensation of a refund of a date, of an amount at a rate after some days: the interest in whole cents.
#[tactic(auto, using(crate::proofs::Laws::Products::cents_laws))]
pub fn compensation(date: u64, amount: u64, rate: u64, days: u64) -> Option<u64>
    ensures { result ≡ compensation_of date amount rate days }
{
    rate_days_amount(days, rate, amount)
        .ok()
        .map(|parts| rounded(date, parts))
}

// The amounts that an event of money posts: specs/Postings.
ghost use Rattle.std.specs.Prelude.{◌≡◌, ◌≤◌, neg_ℤ, nat_abs, ◌+ℤ◌};
ghost use Rattle.positions.specs.Answers.{settlement_of, reversed_of, refunded_of};
ghost use Rattle.positions.specs.Compensation.{amount_limit};
ghost use Rattle.positions.specs.Limits.{compensation_limit};

use crate::{COMPENSATION_LIMIT, Postings};
use common::AMOUNT_LIMIT;

// An amount given to the debtor, with a compensation that the creditor pays beside it.
fn given(amount: i64, cents: i64) -> Postings
    requires amount { nat_abs amount ≤ amount_limit }
    requires cents { nat_abs cents ≤ compensation_limit }
    ensures { result ≡ record { debtor = amount; creditor = neg_ℤ (amount +ℤ cents); dbank = amount +ℤ cents; cbank = neg_ℤ (amount +ℤ cents); compensation = cents } }
{
    let both = amount + cents;
    Postings {
        debtor: amount,
        creditor: -both,
        dbank: both,
        cbank: -both,
        compensation: cents,
    }
}

// The postings of a settle: the debtor is given the amount taken from 0.
#[tactic(auto, unfolding(crate::specs::Answers::settlement_of))]
pub fn settlement(amount: u64) -> Option<Postings>
    ensures { result ≡ settlement_of amount }
{
    (amount <= AMOUNT_LIMIT).then(|| given(-(amount as i64), 0))
}

// The postings of a return or a reversal.
#[tactic(auto, unfolding(crate::specs::Answers::reversed_of))]
pub fn reversed(amount: u64) -> Option<Postings>
    ensures { result ≡ reversed_of amount }
{
    (amount <= AMOUNT_LIMIT).then(|| given(amount as i64, 0))
}

// The postings of a refund with a compensation in cents.
#[tactic(auto, unfolding(crate::specs::Answers::refunded_of))]
pub fn refunded(amount: u64, cents: u64) -> Option<Postings>
    ensures { result ≡ refunded_of amount cents }
{
    (amount <= AMOUNT_LIMIT && cents <= COMPENSATION_LIMIT).then(|| given(
        amount as i64,
        cents as i64,
    ))
}

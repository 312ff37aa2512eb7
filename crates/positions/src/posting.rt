// Postings to a table of positions: specs/Positions and specs/Answers.
ghost use Rattle.std.specs.Prelude.{◌≡◌, ◌<◌, length, IfOk};
ghost use Rattle.positions.specs.Positions.{position, position_limit, has_entry, in_limit};
ghost use Rattle.positions.specs.Answers.{capacity, entry_index, sizes_answer, post_answer, after_post, transfer_answer, after_transfer};

use crate::PostError;
use common::POSITION_LIMIT;
use refusals::ensure;

// The numbers that a posting adds lie within this on either side of 0.
const CAPACITY: u64 = 4000000000000000000;

// Whether z is at most limit on either side of 0.
fn is_within(limit: u64, z: i64) -> bool
    ensures { result ≡ in_limit limit z }
{
    z.unsigned_abs() <= limit
}

// Whether a position lies within the limit of document 01.
pub fn in_limit(z: i64) -> bool
    ensures { result ≡ in_limit position_limit z }
{
    is_within(POSITION_LIMIT.unsigned_abs(), z)
}

// Whether a number is small enough to be added to another such.
fn in_capacity(z: i64) -> bool
    ensures { result ≡ in_limit capacity z }
{
    is_within(CAPACITY, z)
}

// Whether the table has an entry for the number.
pub fn is_entry(positions: &[i64], number: u64) -> bool
    ensures { result ≡ has_entry positions.now number }
{
    (1..=positions.len() as u64).contains(&number)
}

// The position of a number, 0 where there is no entry: so the rules have it for a party that has none.
#[tactic(auto, using(crate::proofs::Laws::Answers::position_steps))]
pub fn position_of(positions: &[i64], number: u64) -> i64
    ensures { result ≡ position positions.now number }
{
    entry_of(positions, number).map_or(0, |at| positions[at])
}

// The index of the entry of a number.
fn entry_of(positions: &[i64], number: u64) -> Result<usize, PostError>
    ensures index { result ≡ entry_index positions.now number }
    ensures held { IfOk result (λ at. at < length positions.now) }
{
    is_entry(positions, number)
        .then(|| (number - 1) as usize)
        .ok_or(PostError::NoEntry)
}

// Whether a position and an amount are both small enough for their sum.
fn sizes_fit(position: i64, amount: i64) -> Result<(), PostError>
    ensures { result ≡ sizes_answer position amount }
{
    ensure(
        in_capacity(position) && in_capacity(amount),
        PostError::TooLarge,
    )
}

// Posts an amount to the position of a number.
#[tactic(auto, using(crate::proofs::Laws::Answers::post_steps), unfolding(crate::specs::Answers::post_answer, crate::specs::Answers::after_post))]
pub fn post(positions: &mut [i64], number: u64, amount: i64) -> Result<(), PostError>
    ensures answer { result ≡ post_answer positions.old number amount }
    ensures table { positions.new ≡ after_post positions.old number amount }
{
    let at = entry_of(positions, number)?;
    sizes_fit(positions[at], amount)?;
    positions[at] += amount;
    Ok(())
}

// Takes an amount from one number and gives it to another, or to the same.
pub fn transfer(positions: &mut [i64], from: u64, to: u64, amount: i64) -> Result<(), PostError>
    ensures answer { result ≡ transfer_answer positions.old from to amount }
    ensures table { positions.new ≡ after_transfer positions.old from to amount }
{
    let from_at = entry_of(positions, from)?;
    let to_at = entry_of(positions, to)?;
    sizes_fit(positions[from_at], amount)?;
    sizes_fit(positions[to_at], amount)?;
    positions[from_at] -= amount;
    positions[to_at] += amount;
    Ok(())
}

// The opening of a ledger, document 01, on memory of any sizes and any content: specs/Opening.
#![tactic(auto)]

ghost use Rattle.std.specs.Prelude.{◌≡◌};
ghost use Rattle.refusals.specs.Refusals.{answer_number};
ghost use Rattle.tables.specs.Ledger.{ledger};
ghost use Rattle.opening.specs.Opening.{open_result, opening};

use fitness::fitness::sizes_fit;
use refusals::Refusal;
use tables::Header;

// A ledger with no rows and all positions 0. The cells of the rows stay as they are: they are lent to be read, as C lends them, and
// so no `BookMut` goes here.
#[tactic(auto, using(crate::proofs::Laws::Opening::opening_steps))]
pub fn open_ledger(
    header: &mut Header,
    mandates: &[u64],
    collections: &[u64],
    creditors: &mut [u64],
    creditor_positions: &mut [i64],
    debtor_positions: &mut [i64],
    bank_positions: &mut [i64],
) -> Result<(), Refusal>
    ensures { open_result (answer_number result) (ledger header.new mandates.now collections.now creditors.new creditor_positions.new debtor_positions.new bank_positions.new)
        ≡ opening (ledger header.old mandates.now collections.now creditors.old creditor_positions.old debtor_positions.old bank_positions.old) }
{
    if !sizes_fit(
        mandates,
        collections,
        creditors,
        creditor_positions,
        debtor_positions,
        bank_positions,
    ) {
        return Err(Refusal::UnfitMemory);
    }
    creditors.fill(0);
    creditor_positions.fill(0);
    debtor_positions.fill(0);
    bank_positions.fill(0);
    *header = Header::default();
    Ok(())
}

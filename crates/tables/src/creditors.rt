// The creditor table: specs/Ledger, `bank_of` and `added`.
ghost use Rattle.std.specs.Prelude.{◌≡◌};
ghost use Rattle.tables.specs.Ledger.{bank_of, added};

// A creditor's bank, 0 where the creditor is not added: so the table and the rules have it, and lent memory may hold any number. One function
// for this and `position_of` of positions would be no shorter than either, and both would stay to name it.
#[tactic(auto, unfolding(crate::specs::Ledger::bank_of))]
pub fn bank_of(creditors: &[u64], number: u64) -> u64
    ensures { result ≡ bank_of creditors.now number }
{
    if number == 0 {
        return 0;
    }
    creditors.get((number - 1) as usize).copied().unwrap_or(0)
}

// Whether a creditor exists.
pub fn is_added(creditors: &[u64], number: u64) -> bool
    ensures { result ≡ added creditors.now number }
{
    bank_of(creditors, number) != 0
}

// The strategy.
ghost use Rattle.std.specs.Prelude.{◌≡◌};
ghost use Rattle.solver_entries.specs.Entries.{Entered, chosen, StrategyWritable, StrategyWritten};

use parity_game::NO_ENTRY;

// The entry of v: its own where its owner wins it; else none.
fn strategy_entry(owners: &[u8], even: &[u64], odd: &[u64], entries: &[u64], v: usize) -> u16
    requires { Entered owners.now even.now odd.now entries.now v }
    ensures { result ≡ chosen owners.now even.now odd.now
        entries.now v }
{
    if owners[v] == 0 {
        if !sets::contains(even, v) {
            return NO_ENTRY;
        }
        return entries[v] as u16;
    }
    if !sets::contains(odd, v) {
        return NO_ENTRY;
    }
    entries[v] as u16
}

// Every entry of the strategy.
pub fn write_strategy(
    owners: &[u8],
    even: &[u64],
    odd: &[u64],
    entries: &[u64],
    strategy: &mut [u16],
)
    requires { StrategyWritable owners.now even.now odd.now entries.now strategy.old }
    ensures { StrategyWritten owners.now even.now odd.now entries.now
        strategy.old strategy.new }
{
    for v in 0..owners.len() {
        strategy[v] = strategy_entry(owners, even, odd, entries, v);
    }
}

// The strategy, of the entries that the attractor left in the work area.
ghost use Rattle.std.specs.Prelude.{◌≡◌, length};
ghost use Rattle.rules.specs.Counting.{listed};
ghost use Rattle.attractor_outputs.specs.Outputs.{word_of, EntryKnown, chosen, EntriesWritable};

use parity_game::NO_ENTRY;

// The entry of v: its own where v is an own vertex of the result outside the target, else none.
fn strategy_entry(
    owners: &[u8],
    alpha: u8,
    target: &[u64],
    res: &[u64],
    work: &[u64],
    entries: usize,
    v: usize,
) -> u16
    requires { EntryKnown owners.now alpha target.now res.now work.now entries v }
    ensures { result ≡ chosen owners.now alpha target.now res.now
        (word_of work.now entries) v }
{
    if !sets::contains(res, v) {
        return NO_ENTRY;
    }
    if sets::contains(target, v) {
        return NO_ENTRY;
    }
    if owners[v] != alpha {
        return NO_ENTRY;
    }
    work[entries + v] as u16
}

// Every entry of the strategy.
pub fn write_strategy(
    owners: &[u8],
    alpha: u8,
    target: &[u64],
    res: &[u64],
    work: &[u64],
    entries: usize,
    strategy: &mut [u16],
)
    requires { EntriesWritable owners.now alpha target.now res.now work.now entries strategy.old }
    ensures { strategy.new
        ≡ listed (length owners.now)
        (chosen owners.now alpha target.now res.now
        (word_of work.now entries)) }
{
    for (v, entry) in strategy.iter_mut().enumerate() {
        *entry = strategy_entry(owners, alpha, target, res, work, entries, v);
    }
}

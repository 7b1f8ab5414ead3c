// The kept numbers of a game record: a fresh count of the priorities, its comparison with what is kept, and one vertex
// moved from a priority to another. What is told of the counts, how many differ and the highest, is in `sum_up` alone.
#![tactic(auto)]

ghost use Rattle.std.specs.Prelude.{◌≡◌, length, take};
ghost use Rattle.rules.specs.Record.{kept_for, fresh_count, kept_check};
ghost use Rattle.parity_game.specs.Said.{verdict};
ghost use Rattle.theory.specs.Counts.{moved};
ghost use Rattle.kept_numbers.specs.Steps.{Counts, Movable};

use parity_game::{Checked, PRIORITIES, Refusal};

// Behind the counts stand how many priorities are there, and the highest.
pub const DIFFERENT: usize = 256;

pub const HIGHEST: usize = 257;

// How many they are.
pub const KEPT: usize = 258;

// How many vertices have each priority up to 255; the last two entries are 0.
fn tally(priorities: &[u16]) -> [u64; KEPT]
    ensures { Counts priorities.now result }
{
    let mut counts = [0u64; KEPT];
    for &p in priorities {
        let p = p as usize;
        if p < PRIORITIES {
            counts[p] += 1;
        }
    }
    counts
}

// How many counts are not 0, and the highest priority of those.
fn sum_up(kept: &mut [u64])
    requires { length kept.old ≡ 258 }
    ensures { kept.new ≡ kept_for (take 256 kept.old) }
{
    let mut different = 0u64;
    let mut highest = 0u64;
    for p in 0..PRIORITIES {
        if kept[p] != 0 {
            different += 1;
            highest = p as u64;
        }
    }
    kept[DIFFERENT] = different;
    kept[HIGHEST] = highest;
}

// The fresh count, of any priorities.
pub fn fresh(priorities: &[u16]) -> [u64; KEPT]
    ensures { result ≡ fresh_count priorities.now }
{
    let mut kept = tally(priorities);
    sum_up(&mut kept);
    kept
}

// 47: what is kept is a fresh count.
pub fn check_kept(priorities: &[u16], kept: &[u64]) -> Checked
    ensures { verdict result ≡ kept_check priorities.now kept.now }
{
    if kept.len() != KEPT {
        return Err(Refusal::KeptDiffer);
    }
    let count = fresh(priorities);
    if kept != count.as_slice() {
        return Err(Refusal::KeptDiffer);
    }
    Ok(())
}

// Writes kept numbers.
pub fn put(count: &[u64; KEPT], kept: &mut [u64])
    requires { (length count.now ≡ 258) × (length kept.old ≡ 258) }
    ensures { kept.new ≡ count.now }
{
    kept.copy_from_slice(count);
}

// Writes a fresh count.
pub fn write_fresh(priorities: &[u16], kept: &mut [u64])
    requires { length kept.old ≡ 258 }
    ensures { kept.new ≡ fresh_count priorities.now }
{
    let count = fresh(priorities);
    put(&count, kept);
}

// One vertex goes from an old priority to a new one.
pub fn recount(kept: &mut [u64], old: usize, new: usize)
    requires { Movable kept.old old new }
    ensures { kept.new ≡ kept_for (take 256 (moved kept.old old new)) }
{
    kept[old] -= 1;
    kept[new] += 1;
    sum_up(kept);
}

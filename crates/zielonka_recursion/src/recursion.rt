// One call on the set V at `base`, the calls below it one level up. It decides the vertices of V and leaves all others.
ghost use Rattle.std.specs.Prelude.{◌≡◌, ◌+◌, ◌≤◌, ◌<◌, Some, None};
ghost use Rattle.zielonka_recursion.specs.Ending.{CalledUnder, Ends};
ghost use Rattle.rules.specs.Tables.{tables_of};

use area::next_set;
use highest_priority::{get_highest_prio, one_less};
use parity_game::Priority;
use zielonka_cuts::{attract_highest, attract_lost};
use zielonka_level::{lost_nothing, win_everything};

// One call more, where the cap allows it.
fn count_call(calls: u64, cap: u64) -> Option<u64>
    ensures { (cap ≤ calls → result ≡ None) × (calls < cap → result ≡ Some (calls + 1)) }
{
    if calls < cap { Some(calls + 1) } else { None }
}

// No priority in V is above `top`; at most `cap` calls are made in all. It gives the calls made so far, or None where
// the cap does not allow them. A nested call on an empty set is counted and not made, which would cost more than its
// work.
pub fn zielonka_rec(
    owners: &[u8],
    priorities: &[u16],
    offsets: &[u16],
    targets: &[u16],
    work: &mut [u64],
    base: usize,
    top: Priority,
    calls: u64,
    cap: u64,
) -> Option<u64>
    requires { CalledUnder (tables_of owners.now priorities.now offsets.now targets.now) base top.0
        work.old }
    ensures { Ends (tables_of owners.now priorities.now offsets.now
        targets.now) base calls cap
        work.old work.new result }
{
    let used = count_call(calls, cap)?;
    let n = owners.len();
    let s = parity_game::set_words(n);
    if sets::is_empty(&work[base..base + s]) {
        return Some(used);
    }
    let p = get_highest_prio(priorities, work, base, s, top);
    attract_highest(owners, offsets, targets, p, s, work, base);
    let up = next_set(base, s);
    if sets::is_empty(&work[up..up + s]) {
        // the attractor is all of V, and p's player wins V
        let made = count_call(used, cap)?;
        win_everything(owners, offsets, targets, p, s, work, base);
        return Some(made);
    }
    let q = one_less(p);
    let made = zielonka_rec(owners, priorities, offsets, targets, work, up, q, used, cap)?;
    if lost_nothing(n, targets.len(), p, s, work, base) {
        win_everything(owners, offsets, targets, p, s, work, base);
        return Some(made);
    }
    attract_lost(owners, offsets, targets, p, s, work, base);
    if sets::is_empty(&work[up..up + s]) {
        return count_call(made, cap);
    }
    zielonka_rec(owners, priorities, offsets, targets, work, up, p, made, cap)
}

// The two solvers, with a precision for each player's dominions. Each narrows the set V at `base` to what it gives: all
// dominions of its own player of at most that player's precision are in, all of the opponent's of at most the
// opponent's are out. What it gives back says where it did better. A solver gives up at precision 0, not 1: a vertex
// that leads to itself is a dominion of one vertex.
ghost use Rattle.std.specs.Prelude.{◌≡◌};
ghost use Rattle.rules.specs.Game.{Even, Odd};
ghost use Rattle.rules.specs.Tables.{tables_of};
ghost use Rattle.quasi_solvers.specs.Calling.{OpinionCalled, SmallDominions};

use quasi_level::{
    Passes, Sharp, attract_top, give_up, highest_at, next_level, settle, size_at, turn_over,
};

// Every priority in V is below `height`, which is odd; each call below has a lower one.
#[cycle(solve_even_solve_odd)]
pub fn solve_even(
    owners: &[u8],
    priorities: &[u16],
    offsets: &[u16],
    targets: &[u16],
    work: &mut [u64],
    base: usize,
    height: usize,
    even: usize,
    odd: usize,
) -> Sharp
    requires { OpinionCalled (tables_of owners.now priorities.now offsets.now targets.now) Even base height
        work.old }
    ensures { SmallDominions (tables_of owners.now priorities.now offsets.now
        targets.now) Even base even odd work.old work.new result }
{
    let s = parity_game::set_words(owners.len());
    let size = size_at(owners.len(), s, work, base);
    let e = even.min(size);
    if e == 0 {
        return give_up(size, s, work, base);
    }
    let p = highest_at(priorities, s, work, base, height);
    let up = next_level(base, s);
    if p.0 % 2 == 1 {
        sets::copy_with(work, up, base, s);
        let turned = solve_odd(
            owners,
            priorities,
            offsets,
            targets,
            work,
            up,
            p.0 + 1,
            even,
            odd,
        );
        return turn_over(s, work, base, turned);
    }
    let o = odd.min(size);
    let half = o / 2;
    let mut passes = Passes::new(half);
    while !passes.is_done() {
        let k = passes.precision(half, o);
        attract_top(owners, priorities, offsets, targets, p, s, work, base);
        let r = solve_odd(owners, priorities, offsets, targets, work, up, p.0, e, k);
        passes = settle(owners, offsets, targets, 1, s, work, base, r, passes, half);
    }
    passes.sharpness(e, o, size)
}

// Every priority in V is below `height`, which is even; each call below has a lower one.
#[cycle(solve_even_solve_odd)]
pub fn solve_odd(
    owners: &[u8],
    priorities: &[u16],
    offsets: &[u16],
    targets: &[u16],
    work: &mut [u64],
    base: usize,
    height: usize,
    even: usize,
    odd: usize,
) -> Sharp
    requires { OpinionCalled (tables_of owners.now priorities.now offsets.now targets.now) Odd base height
        work.old }
    ensures { SmallDominions (tables_of owners.now priorities.now offsets.now
        targets.now) Odd base odd even work.old work.new result }
{
    let s = parity_game::set_words(owners.len());
    let size = size_at(owners.len(), s, work, base);
    let o = odd.min(size);
    if o == 0 {
        return give_up(size, s, work, base);
    }
    let p = highest_at(priorities, s, work, base, height);
    let up = next_level(base, s);
    if p.0 % 2 == 0 {
        sets::copy_with(work, up, base, s);
        let turned = solve_even(
            owners,
            priorities,
            offsets,
            targets,
            work,
            up,
            p.0 + 1,
            even,
            odd,
        );
        return turn_over(s, work, base, turned);
    }
    let e = even.min(size);
    let half = e / 2;
    let mut passes = Passes::new(half);
    while !passes.is_done() {
        let k = passes.precision(half, e);
        attract_top(owners, priorities, offsets, targets, p, s, work, base);
        let r = solve_even(owners, priorities, offsets, targets, work, up, p.0, k, o);
        passes = settle(owners, offsets, targets, 0, s, work, base, r, passes, half);
    }
    passes.sharpness(o, e, size)
}

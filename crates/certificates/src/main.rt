// The checker on the worked games: C10 and C11, results without a strategy, and right results of C6 and C7. Each line
// is a name, then the number and place given back.
#![tactic(auto)]

use record::KEPT;
use std::io;

// Checks by the door a result for a game, whose kept numbers are counted first.
fn check(
    rt: &impl Print,
    name: &str,
    owners: &[u8],
    priorities: &[u16],
    offsets: &[u16],
    targets: &[u16],
    even: &[u64],
    odd: &[u64],
    strategy: &[u16],
) -> io::Result<()> {
    let mut kept = [0u64; KEPT];
    let mut work = [0u64; 318];
    let mut place = 0;
    let mut count = 0;
    let n = owners.len();
    let m = targets.len();
    let _ = record::fresh_count(n, m, owners, priorities, offsets, targets, &mut kept);
    let number = reckonbough_checker::certificate::reckonbough_check(
        n as u64, m as u64, owners, priorities, offsets, targets, &kept, even, odd, strategy,
        &mut work, &mut place, &mut count,
    );
    report(rt, name, number, place)
}

// C6: E2→1; O1→1.
fn on_c6(
    rt: &impl Print,
    name: &str,
    even: &[u64],
    odd: &[u64],
    strategy: &[u16],
) -> io::Result<()> {
    check(
        rt,
        name,
        &[0, 1],
        &[2, 1],
        &[0, 1, 2],
        &[1, 1],
        even,
        odd,
        strategy,
    )
}

// C7: E2→1; O0→0,1.
fn on_c7(
    rt: &impl Print,
    name: &str,
    even: &[u64],
    odd: &[u64],
    strategy: &[u16],
) -> io::Result<()> {
    check(
        rt,
        name,
        &[0, 1],
        &[2, 0],
        &[0, 1, 3],
        &[1, 0, 1],
        even,
        odd,
        strategy,
    )
}

// C5: O1→1,1; E2→1.
fn on_c5(
    rt: &impl Print,
    name: &str,
    even: &[u64],
    odd: &[u64],
    strategy: &[u16],
) -> io::Result<()> {
    check(
        rt,
        name,
        &[1, 0],
        &[1, 2],
        &[0, 2, 3],
        &[1, 1, 1],
        even,
        odd,
        strategy,
    )
}

fn report(rt: &impl Print, name: &str, number: u64, place: u64) -> io::Result<()> {
    println!(rt; "{name}: {number} {place}")
}

fn main(rt: HostRuntime) -> io::Result<()> {
    on_c6(&rt, "C10, Even claims both", &[3], &[0], &[1, 65535])?;
    on_c6(&rt, "C10, one each", &[1], &[2], &[1, 1])?;
    on_c7(&rt, "C11, 0 to 0", &[3], &[0], &[0, 65535])?;
    on_c5(&rt, "C11, vertex 0 in no set", &[2], &[0], &[65535, 1])?;
    on_c5(&rt, "C5, no entries", &[3], &[0], &[65535, 65535])?;
    on_c5(&rt, "C5, one entry", &[3], &[0], &[1, 65535])?;
    on_c5(
        &rt,
        "C5, no entries, vertex 0 in no set",
        &[2],
        &[0],
        &[65535, 65535],
    )?;
    on_c6(
        &rt,
        "C6, no entries, Even claims both",
        &[3],
        &[0],
        &[65535, 65535],
    )?;
    on_c6(
        &rt,
        "C6, no entries, sets turned round",
        &[2],
        &[1],
        &[65535, 65535],
    )?;
    on_c6(&rt, "C6 as it is", &[0], &[3], &[65535, 1])?;
    on_c7(&rt, "C7 as it is", &[3], &[0], &[1, 65535])
}

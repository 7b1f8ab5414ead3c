// The worked games of one owner: name, then for each vertex in order whether it is in the solitaire set (1) or not (0).
#![tactic(auto)]

use record::KEPT;
use std::io;

// The first n bits of the set's only word.
fn print_set(rt: &impl Print, n: usize, set: u64) -> io::Result<()> {
    let mut rest = set;
    for _ in 0..n {
        print!(rt; "{}", rest % 2)?;
        rest = rest / 2;
    }
    Ok(())
}

fn report(
    rt: &impl Print,
    name: &str,
    owners: &[u8],
    priorities: &[u16],
    offsets: &[u16],
    targets: &[u16],
) -> io::Result<()> {
    let mut set = [0u64; 1];
    let mut work = [0u64; 344];
    let mut kept = [0u64; KEPT];
    let mut place = 0;
    let mut count = 0;
    let n = owners.len();
    let m = targets.len();
    let _ = record::fresh_count(n, m, owners, priorities, offsets, targets, &mut kept);
    reckonbough_solitaire::solitaire::reckonbough_solitaire(
        n as u64, m as u64, owners, priorities, offsets, targets, &kept, &mut set, &mut work,
        &mut place, &mut count,
    );
    print!(rt; "{name} ")?;
    print_set(rt, n, set[0])?;
    println!(rt)
}

fn main(rt: HostRuntime) -> io::Result<()> {
    println!(rt; "game set")?;
    report(
        &rt,
        "C8",
        &[0, 0, 0, 0],
        &[1, 2, 1, 3],
        &[0, 1, 2, 3, 4],
        &[1, 2, 1, 3],
    )?;
    report(&rt, "C9", &[0, 0], &[2, 1], &[0, 1, 2], &[1, 1])
}

// Document 01's table of worked games: name, winner of each vertex in order (0 Even, 1 Odd), calls, rounds.
#![tactic(auto)]

use record::KEPT;
use std::io;

// The winners of n vertices, from the word of Odd's set.
fn print_winners(rt: &impl Print, n: usize, odd: u64) -> io::Result<()> {
    let mut rest = odd;
    for _ in 0..n {
        print!(rt; "{}", rest % 2)?;
        rest = rest / 2;
    }
    Ok(())
}

#[derive(Clone, Copy)]
enum Solver {
    Zielonka,
    Promotion,
}

// The calls or rounds that a solver needs; the word of Odd's set is written.
fn needed(
    solver: Solver,
    owners: &[u8],
    priorities: &[u16],
    offsets: &[u16],
    targets: &[u16],
    kept: &[u64],
    odd: &mut [u64],
    strategy: &mut [u16],
) -> u64 {
    let n = owners.len() as u64;
    let m = targets.len() as u64;
    let mut even = [0u64; 1];
    let mut work = [0u64; 344];
    let mut place = 0;
    let mut count = 0;
    match solver {
        Solver::Zielonka => reckonbough_solvers::recursion::reckonbough_zielonka(
            n, m, owners, priorities, offsets, targets, kept, 1000000, &mut even, odd, strategy,
            &mut work, &mut place, &mut count,
        ),
        Solver::Promotion => reckonbough_solvers::promotion::reckonbough_priority_promotion(
            n, m, owners, priorities, offsets, targets, kept, 1000000, &mut even, odd, strategy,
            &mut work, &mut place, &mut count,
        ),
    };
    count
}

fn report(
    rt: &impl Print,
    name: &str,
    owners: &[u8],
    priorities: &[u16],
    offsets: &[u16],
    targets: &[u16],
    strategy: &mut [u16],
) -> io::Result<()> {
    let mut kept = [0u64; KEPT];
    let mut odd = [0u64; 1];
    let n = owners.len();
    // tables that this refuses are refused by each solver too
    let _ = record::fresh_count(
        n,
        targets.len(),
        owners,
        priorities,
        offsets,
        targets,
        &mut kept,
    );
    let made = needed(
        Solver::Zielonka,
        owners,
        priorities,
        offsets,
        targets,
        &kept,
        &mut odd,
        strategy,
    );
    print!(rt; "{name} ")?;
    print_winners(rt, n, odd[0])?;
    print!(rt; " {made}")?;
    let made = needed(
        Solver::Promotion,
        owners,
        priorities,
        offsets,
        targets,
        &kept,
        &mut odd,
        strategy,
    );
    println!(rt; " {made}")
}

fn main(rt: HostRuntime) -> io::Result<()> {
    let mut one = [0u16; 1];
    let mut two = [0u16; 2];
    let mut four = [0u16; 4];
    println!(rt; "game winner calls rounds")?;
    report(&rt, "C2", &[0], &[0], &[0, 1], &[0], &mut one)?;
    report(
        &rt,
        "C5",
        &[1, 0],
        &[1, 2],
        &[0, 2, 3],
        &[1, 1, 1],
        &mut two,
    )?;
    report(&rt, "C6", &[0, 1], &[2, 1], &[0, 1, 2], &[1, 1], &mut two)?;
    report(
        &rt,
        "C7",
        &[0, 1],
        &[2, 0],
        &[0, 1, 3],
        &[1, 0, 1],
        &mut two,
    )?;
    report(
        &rt,
        "C8",
        &[0, 0, 0, 0],
        &[1, 2, 1, 3],
        &[0, 1, 2, 3, 4],
        &[1, 2, 1, 3],
        &mut four,
    )
}

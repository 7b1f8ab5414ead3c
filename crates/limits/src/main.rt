// Document 01's run list for Zielonka on C6, whose W is 8·4·1 + 4·2 + 2·2 + 272 = 316 words: each line is a name,
// then the number, place and count given back.
#![tactic(auto)]

use record::KEPT;
use std::io;

fn report(rt: &impl Print, name: &str, budget: u64, work: &mut [u64]) -> io::Result<()> {
    let mut even = [0u64; 1];
    let mut odd = [0u64; 1];
    let mut strategy = [0u16; 2];
    let mut kept = [0u64; KEPT];
    let mut place = 0;
    let mut count = 0;
    let _ = record::fresh_count(2, 2, &[0, 1], &[2, 1], &[0, 1, 2], &[1, 1], &mut kept);
    let number = reckonbough_solvers::recursion::reckonbough_zielonka(
        2,
        2,
        &[0, 1],
        &[2, 1],
        &[0, 1, 2],
        &[1, 1],
        &kept,
        budget,
        &mut even,
        &mut odd,
        &mut strategy,
        work,
        &mut place,
        &mut count,
    );
    println!(rt; "{name}: {number} {place} {count}")
}

fn main(rt: HostRuntime) -> io::Result<()> {
    let mut enough = [0u64; 316];
    let mut short = [0u64; 315];
    report(&rt, "budget 3", 3, &mut enough)?;
    report(&rt, "budget 4", 4, &mut enough)?;
    report(&rt, "W - 1 words", 4, &mut short)
}

// C5's attractor run: the number, place and looks given back, then the set as a word, the two entries and the two
// distances, and the first and the last word of the work area.
#![tactic(auto)]

use record::KEPT;
use std::io;

fn put(rt: &impl Print, n: u64) -> io::Result<()> {
    print!(rt; "{n} ")
}

fn put_entry(rt: &impl Print, w: u16) -> io::Result<()> {
    put(rt, w as u64)
}

fn main(rt: HostRuntime) -> io::Result<()> {
    let mut result = [0u64; 1];
    let mut strategy = [0u16; 2];
    let mut distances = [7u16; 2];
    let mut work = [7u64; 318];
    let mut kept = [0u64; KEPT];
    let mut place = 0;
    let mut count = 0;
    let _ = record::fresh_count(2, 3, &[1, 0], &[1, 2], &[0, 2, 3], &[1, 1, 1], &mut kept);
    let number = reckonbough_attractor::attraction::reckonbough_attractor(
        2,
        3,
        &[1, 0],
        &[1, 2],
        &[0, 2, 3],
        &[1, 1, 1],
        &kept,
        0,
        &[3],
        &[2],
        &mut result,
        &mut strategy,
        &mut distances,
        &mut work,
        &mut place,
        &mut count,
    );
    print!(rt; "C5 ")?;
    put(&rt, number)?;
    put(&rt, place)?;
    put(&rt, count)?;
    put(&rt, result[0])?;
    put_entry(&rt, strategy[0])?;
    put_entry(&rt, strategy[1])?;
    put_entry(&rt, distances[0])?;
    put_entry(&rt, distances[1])?;
    put(&rt, work[0])?;
    put(&rt, work[317])?;
    println!(rt)
}

// Document 01's run list for tables, a broken table for each other number that the checks give, and the worked games.
#![tactic(auto)]

use std::io;

// Checks the tables, and prints the name, the number given back and its place.
fn report(
    rt: &impl Print,
    name: &str,
    owners: &[u8],
    priorities: &[u16],
    offsets: &[u16],
    targets: &[u16],
) -> io::Result<()> {
    match table_checks::check_tables(owners, priorities, offsets, targets) {
        Ok(()) => println!(rt; "{name} 0 0"),
        Err(e) => println!(rt; "{name} {} {}", e.number(), e.place()),
    }
}

// 0, 1, 2, ..: the offsets and the targets of a game of self loops.
fn number(a: &mut [u16]) {
    for (i, entry) in a.iter_mut().enumerate() {
        *entry = (i % 65536) as u16;
    }
}

// 4,096 vertices, each with a self loop, answer.
fn most_vertices(rt: &impl Print) -> io::Result<()> {
    let mut offsets = [0u16; 4097];
    number(&mut offsets);
    let mut targets = [0u16; 4096];
    number(&mut targets);
    report(
        rt,
        "4096 vertices",
        &[0; 4096],
        &[0; 4096],
        &offsets,
        &targets,
    )
}

// 4,097 get 1.
fn too_many_vertices(rt: &impl Print) -> io::Result<()> {
    let mut offsets = [0u16; 4098];
    number(&mut offsets);
    let mut targets = [0u16; 4097];
    number(&mut targets);
    report(
        rt,
        "4097 vertices",
        &[0; 4097],
        &[0; 4097],
        &offsets,
        &targets,
    )
}

// 16,384 edges answer and 16,385 get 3.
fn edges(rt: &impl Print) -> io::Result<()> {
    report(rt, "16384 edges", &[0], &[0], &[0, 16384], &[0; 16384])?;
    report(rt, "16385 edges", &[0], &[0], &[0, 16385], &[0; 16385])
}

// Priority 255 answers and 256 gets 5; offsets 0,2,1 with n = 2 get 6 at 1.
fn places(rt: &impl Print) -> io::Result<()> {
    report(rt, "priority 255", &[0, 0], &[0, 255], &[0, 1, 2], &[0, 1])?;
    report(rt, "priority 256", &[0, 0], &[0, 256], &[0, 1, 2], &[0, 1])?;
    report(rt, "offsets 0,2,1", &[0, 0], &[0, 0], &[0, 2, 1], &[0, 1])
}

// A game of two self loops, broken in one place for each line: 2, 4, 6, 7 and 8.
fn broken(rt: &impl Print) -> io::Result<()> {
    broken_lengths(rt)?;
    report(rt, "owner 2", &[0, 2], &[0, 1], &[0, 1, 2], &[0, 1])?;
    broken_offsets(rt)?;
    report(rt, "target 2", &[0, 1], &[0, 1], &[0, 1, 2], &[0, 2])?;
    report(rt, "no edge", &[0, 1], &[0, 1], &[0, 2, 2], &[0, 1])
}

fn broken_lengths(rt: &impl Print) -> io::Result<()> {
    report(rt, "one priority", &[0, 1], &[0], &[0, 1, 2], &[0, 1])?;
    report(rt, "two offsets", &[0, 1], &[0, 1], &[0, 1], &[0, 1])
}

fn broken_offsets(rt: &impl Print) -> io::Result<()> {
    report(rt, "offsets 1,1,2", &[0, 1], &[0, 1], &[1, 1, 2], &[0, 1])?;
    report(rt, "offsets 0,1,1", &[0, 1], &[0, 1], &[0, 1, 1], &[0, 1])
}

fn worked_small(rt: &impl Print) -> io::Result<()> {
    report(rt, "C1", &[], &[], &[0], &[])?;
    report(rt, "C2", &[0], &[0], &[0, 1], &[0])?;
    report(rt, "C3", &[0], &[1], &[0, 1], &[0])
}

fn worked_two(rt: &impl Print) -> io::Result<()> {
    report(rt, "C4", &[0, 1], &[0, 1], &[0, 1, 3], &[1, 0, 1])?;
    report(rt, "C5", &[1, 0], &[1, 2], &[0, 2, 3], &[1, 1, 1])?;
    report(rt, "C6", &[0, 1], &[2, 1], &[0, 1, 2], &[1, 1])
}

fn worked_more(rt: &impl Print) -> io::Result<()> {
    report(rt, "C7", &[0, 1], &[2, 0], &[0, 1, 3], &[1, 0, 1])?;
    report(
        rt,
        "C8",
        &[0, 0, 0, 0],
        &[1, 2, 1, 3],
        &[0, 1, 2, 3, 4],
        &[1, 2, 1, 3],
    )?;
    report(rt, "C9", &[0, 0], &[2, 1], &[0, 1, 2], &[1, 1])
}

fn main(rt: HostRuntime) -> io::Result<()> {
    most_vertices(&rt)?;
    too_many_vertices(&rt)?;
    edges(&rt)?;
    places(&rt)?;
    broken(&rt)?;
    worked_small(&rt)?;
    worked_two(&rt)?;
    worked_more(&rt)
}

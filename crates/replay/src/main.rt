// Replays the fixed list of the oracle's answers, one game a line on standard input (compare/README.md says how it
// was made): n m owners.. priorities.. offsets.. targets.. winners.. calls rounds solitaire.. Prints how many games
// there were, and on how many of them each solver differs. A line that is no game counts as a difference.
#![tactic(auto)]

mod said;
mod text;

use record::KEPT;
use replay_solvers::{Solver, solitaire_differs, solver_differs};
use std::io;
use std::io::Read;

// The list, or as much of it as this room holds.
const MOST_BYTES: usize = 65536;

// On one line: where the next begins, and which solvers differ.
#[derive(Clone, Copy)]
struct Line {
    next: usize,
    zielonka: bool,
    promotion: bool,
    solitaire: bool,
}

// The game of a line against what stands after its tables.
fn judge(
    list: &[u8],
    from: usize,
    end: usize,
    owners: &[u8],
    priorities: &[u16],
    offsets: &[u16],
    targets: &[u16],
) -> Line {
    let mut kept = [0u64; KEPT];
    let n = owners.len();
    // tables that this refuses are refused by each solver too
    let _ = record::fresh_count(
        n,
        targets.len(),
        owners,
        priorities,
        offsets,
        targets,
        &mut kept,
    );
    let answer = said::read_said(list, from, n);
    let zielonka = solver_differs(
        Solver::Zielonka,
        owners,
        priorities,
        offsets,
        targets,
        &kept,
        answer,
    );
    let promotion = solver_differs(
        Solver::Promotion,
        owners,
        priorities,
        offsets,
        targets,
        &kept,
        answer,
    );
    let solitaire = solitaire_differs(owners, priorities, offsets, targets, &kept, answer);
    Line {
        next: end,
        zielonka,
        promotion,
        solitaire,
    }
}

// The rest of a line, after n and m, with tables of these lengths to read it into.
fn replay_game(
    list: &[u8],
    from: usize,
    end: usize,
    owners: &mut [u8],
    priorities: &mut [u16],
    offsets: &mut [u16],
    targets: &mut [u16],
) -> Line {
    let at = text::tables(list, from, owners, priorities, offsets, targets);
    judge(list, at, end, owners, priorities, offsets, targets)
}

fn replay_line(list: &[u8], from: usize) -> Line {
    let mut owners = [0u8; 12];
    let mut priorities = [0u16; 12];
    let mut offsets = [0u16; 13];
    let mut targets = [0u16; 48];
    let end = text::line_end(list, from);
    let vertices = text::number(list, from);
    let edges = text::number(list, vertices.next);
    let n = vertices.value as usize;
    let m = edges.value as usize;
    if n > 12 || m > 48 {
        return Line {
            next: end,
            zielonka: true,
            promotion: true,
            solitaire: true,
        };
    }
    replay_game(
        list,
        edges.next,
        end,
        &mut owners[0..n],
        &mut priorities[0..n],
        &mut offsets[0..n + 1],
        &mut targets[0..m],
    )
}

fn print(rt: &impl Print, name: &str, number: u64) -> io::Result<()> {
    println!(rt; "{name}{number}")
}

fn main(rt: HostRuntime) -> io::Result<()> {
    let mut buffer = [0u8; MOST_BYTES];
    let read = io::copy(
        &mut rt.reader().take(MOST_BYTES as u64),
        &mut &mut buffer[..],
    )?;
    // no more than the room, which no clause of `copy` says
    let length = MOST_BYTES.min(read as usize);
    let list: &[u8] = &buffer[0..length];
    let games = text::lines(list);
    let mut at = 0;
    let mut zielonka: u64 = 0;
    let mut promotion: u64 = 0;
    let mut solitaire: u64 = 0;
    for _ in 0..games {
        let line = replay_line(list, at);
        at = line.next;
        zielonka = zielonka.wrapping_add(line.zielonka as u64);
        promotion = promotion.wrapping_add(line.promotion as u64);
        solitaire = solitaire.wrapping_add(line.solitaire as u64);
    }
    print(&rt, "games: ", games)?;
    print(&rt, "Zielonka differs on ", zielonka)?;
    print(&rt, "priority promotion differs on ", promotion)?;
    print(&rt, "solitaire differs on ", solitaire)
}

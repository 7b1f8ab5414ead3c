// The program of PGSolver files: reads a text from standard input, takes at most one argument, a budget for each
// engine, and prints one line. What the line says is proved of the functions that `main` calls.
#![tactic(auto)]

use std::env::FillError;
use std::io;
use std::io::Read;
use std::rt::Env;

// One byte more than the limit is enough: the line for so many bytes is the line for the whole input
// (`front_prints` of solving/specs/Front.antt).
const ENOUGH: usize = 16385;

fn print_text(rt: &(impl Input + Print), budget: u64) -> io::Result<()> {
    let mut text = [0u8; ENOUGH];
    let mut line = [0u8; 256];
    let read = io::copy(&mut rt.reader().take(ENOUGH as u64), &mut &mut text[..])?;
    // no more than the room, which no clause of `copy` says
    let length = ENOUGH.min(read as usize);
    let end = solving::solve_text(&text[0..length], budget, &mut line);
    rt.write_all(&line[0..end])
}

fn print_refused(rt: &impl Print) -> io::Result<()> {
    let mut line = [0u8; 256];
    let end = printing::refused_line(36, 0, &mut line);
    rt.write_all(&line[0..end])
}

// Whether the program was started with an argument i, however long.
fn is_given(rt: &impl Env, i: usize) -> bool {
    !matches!(rt.arg(i, &mut []), Err(FillError::NotPresent))
}

// An argument that is too long for the room is given as empty, and neither is a budget.
fn main(rt: HostRuntime) -> io::Result<()> {
    let mut first = [0u8; 16];
    let length = rt.arg(1, &mut first).unwrap_or(0);
    let given = 1 + is_given(&rt, 1) as usize + is_given(&rt, 2) as usize;
    match arguments::ask(given, &first[0..length]) {
        Some(budget) => print_text(&rt, budget),
        None => print_refused(&rt),
    }
}

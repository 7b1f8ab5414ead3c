// From a text to the line that the program prints: the text is read, both engines solve its game, and what they gave is
// put into a line.
#![tactic(auto)]

ghost use Rattle.std.specs.Prelude.{◌≡◌, ◌≤◌, length, take};
ghost use Rattle.rules.specs.Printing.{PrintsText};
ghost use Rattle.parity_game.specs.Said.{said};

use parity_game::Answer;

// A1's limit of a text's bytes, 16 KiB.
const MOST_BYTES: u64 = 16384;

// The number of an answer, 0 where it is a count, and its place.
fn told(answer: Answer) -> (u64, u64)
    ensures { (result.0 ≡ (said answer).number) × (result.1 ≡ (said answer).place) }
{
    match answer {
        Ok(_) => (0, 0),
        Err(refusal) => (refusal.number(), refusal.place()),
    }
}

// In rooms for A1's limits: 16,384 bytes, 128 vertices and 512 edges.
pub fn solve_text(text: &[u8], budget: u64, out: &mut [u8]) -> usize
    requires { 256 ≤ length out.old }
    ensures { PrintsText budget text.now (take result out.new) × (result ≤ length out.new) }
{
    let mut owners = [0u8; 128];
    let mut priorities = [0u16; 128];
    let mut offsets = [0u16; 129];
    let mut targets = [0u16; 512];
    let mut work = [0u64; 640];
    let mut vertices = 0;
    let mut edges = 0;
    let read = pgsolver::read(
        text,
        MOST_BYTES,
        &mut owners,
        &mut priorities,
        &mut offsets,
        &mut targets,
        &mut work,
        &mut vertices,
        &mut edges,
    );
    let (number, place) = told(read);
    if number != 0 {
        return printing::refused_line(number, place, out);
    }
    let n = vertices as usize;
    let m = edges as usize;
    both_engines::solve_tables(
        &owners[0..n],
        &priorities[0..n],
        &offsets[0..n + 1],
        &targets[0..m],
        budget,
        out,
    )
}

// The checks 1 to 3, of how many vertices, entries and edges there are. None looks into a table.
#![tactic(auto)]

ghost use Rattle.std.specs.Prelude.{◌≡◌, ◌≤◌};
ghost use Rattle.rules.specs.Tables.{check1, check2, check3};
ghost use Rattle.rules.specs.Outcome.{◌then◌};
ghost use Rattle.parity_game.specs.Said.{verdict};

use parity_game::{Checked, MOST_EDGES, MOST_VERTICES, Refusal};

// 1: no more than 4,096 vertices.
fn check_vertices(n: usize) -> Checked
    ensures { verdict result ≡ check1 n }
{
    if MOST_VERTICES < n {
        return Err(Refusal::TooManyVertices);
    }
    Ok(())
}

// 2: as many priorities as vertices, and one offset more.
fn check_counts(n: usize, priorities: usize, offsets: usize) -> Checked
    requires { n ≤ 4096 }
    ensures { verdict result ≡ check2 n priorities offsets }
{
    if priorities != n {
        return Err(Refusal::TableLengths);
    }
    if offsets != n + 1 {
        return Err(Refusal::TableLengths);
    }
    Ok(())
}

// 3: no more than 16,384 edges.
fn check_edges(m: usize) -> Checked
    ensures { verdict result ≡ check3 m }
{
    if MOST_EDGES < m {
        return Err(Refusal::TooManyEdges);
    }
    Ok(())
}

// 1 to 3: the sizes.
pub fn check_lengths(n: usize, priorities: usize, offsets: usize, m: usize) -> Checked
    ensures { verdict result ≡ check1 n then check2 n priorities offsets then check3 m }
{
    check_vertices(n)?;
    check_counts(n, priorities, offsets)?;
    check_edges(m)
}

// How many words a set and the work area have, and the checks 9 and 10 of what is lent. None writes anything.
ghost use Rattle.std.specs.Prelude.{◌≡◌, ◌∷◌, [], ◌≤◌};
ghost use Rattle.rules.specs.Tables.{words, work_words, check9, check10};
ghost use Rattle.parity_game.specs.Said.{verdict};

use crate::refusal::{Checked, Refusal};

// s: the words of a set of n vertices.
pub fn set_words(n: usize) -> usize
    ensures { result ≡ words n }
{
    n / 64 + (n % 64 + 63) / 64
}

// W: the words of the work area.
pub fn work_words(n: usize, m: usize) -> usize
    requires { (n ≤ 4096) × (m ≤ 16384) }
    ensures { result ≡ work_words n m }
{
    8 * (n + 2) * set_words(n) + 4 * n + 2 * m + 272
}

// 9 for one set.
pub fn check_set(n: usize, set: usize) -> Checked
    ensures { verdict result ≡ check9 n (set ∷ []) [] }
{
    if set != set_words(n) {
        return Err(Refusal::BadSize);
    }
    Ok(())
}

// 9 for one strategy or new priority table.
pub fn check_table(n: usize, table: usize) -> Checked
    ensures { verdict result ≡ check9 n [] (table ∷ []) }
{
    if table != n {
        return Err(Refusal::BadSize);
    }
    Ok(())
}

// 10.
pub fn check_work(n: usize, m: usize, work: usize) -> Checked
    requires { (n ≤ 4096) × (m ≤ 16384) }
    ensures { verdict result ≡ check10 n m work }
{
    if work < work_words(n, m) {
        return Err(Refusal::ShortWork);
    }
    Ok(())
}

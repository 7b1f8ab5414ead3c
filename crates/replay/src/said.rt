// The oracle's answer as it stands in a line of the list.
use crate::text;
use oracle::Said;

// From what stands after the tables of a game of n vertices.
pub fn read_said(list: &[u8], from: usize, n: usize) -> Said {
    let even = text::set(list, from, n, 0);
    let odd = text::set(list, from, n, 1);
    let calls = text::number(list, odd.next);
    let rounds = text::number(list, calls.next);
    let solitaire = text::set(list, rounds.next, n, 1);
    Said {
        even: even.value,
        odd: odd.value,
        calls: calls.value,
        rounds: rounds.value,
        solitaire: solitaire.value,
        two_owners: text::is_dash(list, rounds.next),
    }
}

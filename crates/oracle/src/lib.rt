// The oracle's answer to one game of the fixed list, and whether what a solver gave differs from it.
#![tactic(auto)]

ghost use Rattle.std.specs.Prelude.{true, false, ◌≡◌};

// The oracle's answer: the sets that Even and Odd win, as words, calls and rounds, and the solitaire set.
#[derive(Clone, Copy)]
pub struct Said {
    pub even: u64,
    pub odd: u64,
    pub calls: u64,
    pub rounds: u64,
    pub solitaire: u64,
    pub two_owners: bool,
}

// Whether anything but number 0 was given with these sets and this count, or anything but 0 by the checker to them.
pub fn differs(
    number: u64,
    made: u64,
    checked: u64,
    even: u64,
    odd: u64,
    count: u64,
    wanted: Said,
) -> bool
    ensures { result ≡ false →
        (number ≡ 0) × (made ≡ count) × (checked ≡ 0) ×
        (even ≡ wanted.even) × (odd ≡ wanted.odd) }
{
    number != 0 || made != count || checked != 0 || even != wanted.even || odd != wanted.odd
}

// Whether anything but the refusal of two owners was given where there are two, or else anything but this set.
pub fn set_differs(number: u64, set: u64, wanted: Said) -> bool
    ensures { (result ≡ false → wanted.two_owners ≡ true → number ≡ 11) ×
        (result ≡ false → wanted.two_owners ≡ false → (number ≡ 0) × (set ≡ wanted.solitaire)) }
{
    if wanted.two_owners {
        number != 11
    } else {
        number != 0 || set != wanted.solitaire
    }
}

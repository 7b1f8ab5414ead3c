// One attractor as it is drawn: what does not change on the way. The work area does, and the layers' places in it.
#![tactic(auto)]

ghost use Rattle.std.specs.Prelude.{◌≡◌, length};
ghost use Rattle.rules.specs.Tables.{words};

use area::Area;

// The tables, the player alpha, and where V and the set that grows stand; a set has s words.
#[derive(Clone, Copy)]
pub struct Drawing<'a> {
    pub owners: &'a [u8],
    pub offsets: &'a [u16],
    pub targets: &'a [u16],
    pub s: usize,
    pub alpha: u8,
    pub within: usize,
    pub set: usize,
    pub ghost size: { s ≡ words (length owners.now) },
}

impl<'a> Drawing<'a> {
    pub fn area(&self) -> Area
        ensures { result ≡ record { n = length self.now.owners.now; m = length self.now.targets.now; s = self.now.s } }
    {
        Area {
            n: self.owners.len(),
            m: self.targets.len(),
            s: self.s,
        }
    }
}

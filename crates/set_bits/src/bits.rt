// One member: asked for, added.
ghost use Rattle.std.specs.Prelude.{◌&&◌, not, ◌≡◌, ◌*◌, ◌<◌, length};
ghost use Rattle.rules.specs.Words.{set_of};
ghost use Rattle.set_bits.specs.After.{Put};

pub fn contains(set: &[u64], v: usize) -> bool
    requires { v < 64 * length set.now }
    ensures { result ≡ set_of set.now v }
{
    (set[v / 64] >> (v % 64)) & 1 == 1
}

// Whether v is in the one set and not in the other: one test, where two would each be hard to foresee.
pub fn in_difference(set: &[u64], without: &[u64], v: usize) -> bool
    requires { (v < 64 * length set.now) × (v < 64 * length without.now) }
    ensures { result ≡ (set_of set.now v && not (set_of without.now v)) }
{
    ((set[v / 64] & !without[v / 64]) >> (v % 64)) & 1 == 1
}

pub fn insert(set: &mut [u64], v: usize)
    requires { v < 64 * length set.old }
    ensures { Put v 1 set.old set.new }
{
    let i = v / 64;
    set[i] |= 1u64 << (v % 64);
}

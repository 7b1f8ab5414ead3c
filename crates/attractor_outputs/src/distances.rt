// The distances, of those that the attractor left in the work area.
ghost use Rattle.std.specs.Prelude.{◌≡◌, length};
ghost use Rattle.rules.specs.Counting.{listed};
ghost use Rattle.attractor_outputs.specs.Outputs.{word_of, Measured, measure, Measurable};

use parity_game::NO_DISTANCE;

// The distance of v: 0 in the target, 65,535 outside the result, else its own.
fn distance_entry(target: &[u64], res: &[u64], work: &[u64], far: usize, v: usize) -> u16
    requires { Measured target.now res.now work.now far v }
    ensures { result ≡ measure target.now res.now (word_of work.now far) v }
{
    if !sets::contains(res, v) {
        return NO_DISTANCE;
    }
    if sets::contains(target, v) {
        return 0;
    }
    work[far + v] as u16
}

// Every distance.
pub fn write_distances(target: &[u64], res: &[u64], work: &[u64], far: usize, distances: &mut [u16])
    requires { Measurable (length distances.old) target.now res.now work.now far }
    ensures { distances.new
        ≡ listed (length distances.old)
        (measure target.now res.now (word_of work.now far)) }
{
    for (v, distance) in distances.iter_mut().enumerate() {
        *distance = distance_entry(target, res, work, far, v);
    }
}

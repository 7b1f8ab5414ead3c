// The numbers of a record, its targets and its end. Each function gives the place after what it has put.
ghost use Rattle.std.specs.Prelude.{◌++◌, ◌<◌, length};
ghost use Rattle.rules.specs.Decimal.{decimal};
ghost use Rattle.rules.specs.Writing.{line_end, targets_text};
ghost use Rattle.putting.specs.Puts.{Fits, Puts};
ghost use Rattle.writing.specs.Lengths.{record_bytes};
ghost use Rattle.pgsolver_line.specs.Records.{fields_bytes};

use putting::{put_number, put_word};

// A number and what stands behind it.
pub fn put_ended(value: u64, behind: &[u8], text: &mut [u8], at: usize) -> usize
    requires { Fits at (decimal value ++ behind.now) text.old }
    ensures { Puts at (decimal value ++ behind.now) text.old text.new result }
{
    let at = put_number(value, text, at);
    put_word(behind, text, at)
}

// The targets with commas between, a semicolon and LF.
fn put_targets(targets: &[u16], text: &mut [u8], at: usize) -> usize
    requires { (0 < length targets.now) × Fits at (targets_text targets.now ++ line_end) text.old }
    ensures { Puts at (targets_text targets.now ++ line_end) text.old text.new result }
{
    let last = targets.len() - 1;
    let mut next = at;
    for e in 0..last {
        next = put_ended(targets[e] as u64, b",", text, next);
    }
    put_ended(targets[last] as u64, b";\n", text, next)
}

// The numbers before the targets.
fn put_fields(identifier: u64, priority: u64, owner: u64, text: &mut [u8], at: usize) -> usize
    requires { Fits at (fields_bytes identifier priority owner) text.old }
    ensures { Puts at (fields_bytes identifier priority owner) text.old text.new result }
{
    let at = put_ended(identifier, b" ", text, at);
    let at = put_ended(priority, b" ", text, at);
    put_ended(owner, b" ", text, at)
}

// Identifier, priority, owner and targets.
pub fn put_record(
    v: usize,
    priority: u16,
    owner: u8,
    targets: &[u16],
    text: &mut [u8],
    at: usize,
) -> usize
    requires { (0 < length targets.now) × Fits at (record_bytes v priority owner targets.now) text.old }
    ensures { Puts at (record_bytes v priority owner targets.now) text.old text.new result }
{
    let at = put_fields(v as u64, priority as u64, owner as u64, text, at);
    put_targets(targets, text, at)
}

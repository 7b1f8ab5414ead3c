// How long the text is, piece by piece.
ghost use Rattle.std.specs.Prelude.{◌≡◌, ◌<◌, ◌≤◌, length};
ghost use Rattle.rules.specs.Decimal.{decimal};
ghost use Rattle.rules.specs.Tables.{tables_of};
ghost use Rattle.rules.specs.Writing.{text_of};
ghost use Rattle.writing.specs.Lengths.{after_each, record_bytes};
ghost use Rattle.pgsolver_line.specs.Written.{PutWritten};

// The digits of a number.
fn digits(value: u64) -> usize
    ensures { result ≡ length (decimal value) }
{
    let mut rest = value;
    let mut count = 1;
    while 10 <= rest {
        rest /= 10;
        count += 1;
    }
    count
}

// The targets with a byte behind each.
fn targets_length(targets: &[u16]) -> usize
    requires { after_each targets.now ≤ 131085 }
    ensures { result ≡ after_each targets.now }
{
    let mut sum = 0;
    for &t in targets {
        sum += digits(t as u64) + 1;
    }
    sum
}

// A record: beside its numbers and targets three blanks and LF.
fn record_length(v: usize, priority: u16, owner: u8, targets: &[u16]) -> usize
    requires { (0 < length targets.now) × (length (record_bytes v priority owner targets.now) ≤ 131085) }
    ensures { result ≡ length (record_bytes v priority owner targets.now) }
{
    let numbers = digits(v as u64) + digits(priority as u64) + digits(owner as u64);
    numbers + targets_length(targets) + 4
}

// The whole text: the header and every record.
pub fn text_length(owners: &[u8], priorities: &[u16], offsets: &[u16], targets: &[u16]) -> usize
    requires { PutWritten (tables_of owners.now priorities.now offsets.now targets.now) }
    ensures { result
        ≡ length
        (text_of
        (tables_of owners.now priorities.now offsets.now targets.now)) }
{
    let mut sum = digits((owners.len() - 1) as u64) + 9;
    for v in 0..owners.len() {
        let begin = offsets[v] as usize;
        let end = offsets[v + 1] as usize;
        sum += record_length(v, priorities[v], owners[v], &targets[begin..end]);
    }
    sum
}

// The records one behind another, and the header before them. Each function gives the place after what it has put.
ghost use Rattle.std.specs.Prelude.{length};
ghost use Rattle.rules.specs.Tables.{tables_of};
ghost use Rattle.rules.specs.Writing.{records_text, text_of};
ghost use Rattle.putting.specs.Puts.{Fits, Puts};
ghost use Rattle.pgsolver_line.specs.Written.{PutWritten};

use pgsolver_line::{put_ended, put_record};
use putting::put_word;

// The records, in identifier order.
fn put_records(
    owners: &[u8],
    priorities: &[u16],
    offsets: &[u16],
    targets: &[u16],
    text: &mut [u8],
    at: usize,
) -> usize
    requires { PutWritten (tables_of owners.now priorities.now offsets.now targets.now)
        × Fits at
        (records_text (tables_of owners.now priorities.now offsets.now targets.now) (length owners.now))
        text.old }
    ensures { Puts at
        (records_text
        (tables_of owners.now priorities.now offsets.now targets.now)
        (length owners.now))
        text.old
        text.new
        result }
{
    let mut next = at;
    for v in 0..owners.len() {
        let begin = offsets[v] as usize;
        let end = offsets[v + 1] as usize;
        next = put_record(
            v,
            priorities[v],
            owners[v],
            &targets[begin..end],
            text,
            next,
        );
    }
    next
}

// The header and the records, from the array's beginning on.
pub fn put_text(
    owners: &[u8],
    priorities: &[u16],
    offsets: &[u16],
    targets: &[u16],
    text: &mut [u8],
) -> usize
    requires { PutWritten (tables_of owners.now priorities.now offsets.now targets.now)
        × Fits 0 (text_of (tables_of owners.now priorities.now offsets.now targets.now)) text.old }
    ensures { Puts 0
        (text_of (tables_of owners.now priorities.now offsets.now
        targets.now))
        text.old
        text.new
        result }
{
    let at = put_word(b"parity ", text, 0);
    let at = put_ended((owners.len() - 1) as u64, b";\n", text, at);
    put_records(owners, priorities, offsets, targets, text, at)
}

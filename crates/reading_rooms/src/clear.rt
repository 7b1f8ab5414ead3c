// What a refusal leaves: every entry of the tables and every word of the work area that was used becomes 0.
ghost use Rattle.std.specs.Prelude.{◌++◌, ◌≡◌, ◌≤◌, length, drop, replicate};
ghost use Rattle.reading_rooms.specs.Cleared.{TablesZero, AllZero};

// The first `used` words of the work area become 0.
pub fn clear_work(work: &mut [u64], used: usize)
    requires { used ≤ length work.old }
    ensures { work.new ≡ replicate used 0 ++ drop used work.old }
{
    sets::clear(work, 0, used);
}

// Every entry of the tables becomes 0.
pub fn clear_tables(
    owners: &mut [u8],
    priorities: &mut [u16],
    offsets: &mut [u16],
    targets: &mut [u16],
)
    ensures { TablesZero owners.old priorities.old offsets.old targets.old
        owners.new priorities.new offsets.new targets.new }
{
    owners.fill(0);
    priorities.fill(0);
    offsets.fill(0);
    targets.fill(0);
}

pub fn clear_rooms(
    owners: &mut [u8],
    priorities: &mut [u16],
    offsets: &mut [u16],
    targets: &mut [u16],
    work: &mut [u64],
    used: usize,
)
    requires { used ≤ length work.old }
    ensures { AllZero used
        (record {
          owners = owners.old;
          priorities = priorities.old;
          offsets = offsets.old;
          targets = targets.old;
          work = work.old;
        })
        (record {
          owners = owners.new;
          priorities = priorities.new;
          offsets = offsets.new;
          targets = targets.new;
          work = work.new;
        }) }
{
    clear_tables(owners, priorities, offsets, targets);
    clear_work(work, used);
}

ghost use Rattle.std.specs.Prelude.{◌≡◌, ◌+◌, ◌<◌, ◌≤◌, ◌++◌, [], All, length};
ghost use Rattle.cc_kernel.specs.Seats.{seat_at, seat_faults};
ghost use Rattle.cc_base.specs.Limits.{most_processes};
ghost use Rattle.cc_rules.specs.Faulted.{fault_of};

use crate::seats::Seats;
use cc_base::Pid;
use cc_rules::Faults;

// Lists the process, where it was stopped by a fault, after those of smaller numbers.
fn list_fault<P: Drop>(seats: &Seats<P>, faults: &mut Faults, at: usize)
    requires within { at < length seats.now.items }
    requires few { length seats.now.items ≤ most_processes }
    requires room { 0 < faults.old.spare }
    requires below { All (λ f. f.0.0 < at) faults.old.items }
    ensures items { faults.new.items ≡ faults.old.items ++ fault_of at (seat_at seats.now.items at).standing }
    ensures room { faults.old.spare ≤ faults.new.spare + 1 }
{
    let Some(standing) = seats.standing(at) else {
        return;
    };
    let Some(kind) = standing.fault() else {
        return;
    };
    faults.add((Pid(at as u32), kind));
}

/// Lists the processes that were stopped by a fault, in the room that was made before.
pub(crate) fn list_faults<P: Drop>(seats: &Seats<P>, faults: &mut Faults)
    requires empty { faults.old.items ≡ [] }
    requires few { length seats.now.items ≤ most_processes }
    requires room { most_processes ≤ faults.old.spare }
    ensures { faults.new.items ≡ seat_faults 0 seats.now.items }
{
    for at in 0..seats.len() {
        list_fault(seats, faults, at);
    }
}

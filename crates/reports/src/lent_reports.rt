// What is printed for a lent plane.
ghost use Rattle.std.specs.Prelude.{◌+◌, ◌≤◌};
ghost use Rattle.arrayvec.specs.ArrayVec.{array_vec_len};
ghost use Rattle.policies.specs.LentPolicy.{lent_policy};
ghost use Rattle.print.specs.Decimal.{Written};
ghost use Rattle.plane.specs.lent.Lent.{lists_of};
ghost use Rattle.reports.specs.outcome_lines.PolicyLines.{record_bytes, policy_lines, report_bytes};

use crate::outcome_lines::RECORD_BYTES;
use arrayvec::ArrayVec;
use plane::lent::Lent;

// The lines for a lent plane.
pub fn put_lent_plane<const N: usize>(out: &mut ArrayVec<u8, N>, l: Lent)
    requires { array_vec_len out.old + report_bytes ≤ N }
    ensures { Written out.old.items out.new.items (policy_lines record_bytes (lent_policy (lists_of l.entry))) report_bytes }
{
    // Work slices, as a caller in C lends them: nothing is allocated.
    let mut plane = [0u32; 4160];
    let mut spans = [0u32; 2048];
    let mut upright = [0u32; 4160];
    let mut slots = [0u32; 12480];
    let mut record = [0u8; RECORD_BYTES];
    let stated = builder::lent_builder::read_lent_plane(
        l,
        &mut plane,
        &mut spans,
        &mut upright,
        &mut slots,
        &mut record,
    );
    crate::outcome_lines::put_outcome(out, stated, &record);
}

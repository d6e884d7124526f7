// What is printed for a sheet.
#![tactic(auto)]

pub mod lent_reports;
pub mod outcome_lines;

ghost use Rattle.std.specs.Prelude.{◌+◌, ◌≤◌};
ghost use Rattle.arrayvec.specs.ArrayVec.{array_vec_len};
ghost use Rattle.policies.specs.DrawnPolicy.{walked_policy};
ghost use Rattle.print.specs.Decimal.{Written};
ghost use Rattle.reports.specs.outcome_lines.PolicyLines.{record_bytes, policy_lines, report_bytes};

use crate::outcome_lines::RECORD_BYTES;
use arrayvec::ArrayVec;
use model::limits::CANVAS_SIZE;

// The lines for a sheet.
pub fn put_sheet<const N: usize>(out: &mut ArrayVec<u8, N>, s: &[u8])
    requires { array_vec_len out.old + report_bytes ≤ N }
    ensures { Written out.old.items out.new.items (policy_lines record_bytes (walked_policy s.now)) report_bytes }
{
    // Work slices, as a caller in C lends them: nothing is allocated.
    let mut text = [0u32; CANVAS_SIZE];
    let mut thins = [0u32; CANVAS_SIZE];
    let mut bodies = [0u32; CANVAS_SIZE];
    let mut grid = [0u32; CANVAS_SIZE];
    let mut spans = [0u32; 2048];
    let mut bytes = [0u8; 61444];
    let mut record = [0u8; RECORD_BYTES];
    let drawn = builder::read_sheet(
        s,
        &mut text,
        &mut thins,
        &mut bodies,
        &mut grid,
        &mut spans,
        &mut bytes,
        &mut record,
    );
    crate::outcome_lines::put_outcome(out, drawn, &record);
}

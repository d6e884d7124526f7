// What is printed for an outcome: the record's lines, or the refusal.
ghost use Rattle.std.specs.Prelude.{◌≡◌, ◌+◌, ◌≤◌, length};
ghost use Rattle.arrayvec.specs.ArrayVec.{array_vec_len};
ghost use Rattle.print.specs.Decimal.{Written};
ghost use Rattle.reports.specs.outcome_lines.Outcomes.{outcome_lines, OutcomeSound};
ghost use Rattle.reports.specs.outcome_lines.PolicyLines.{record_bytes, report_bytes};

use arrayvec::ArrayVec;
use model::Refusal;

// Room for the lines of a record, and for those of a refusal.
pub const REPORT_BYTES: usize = 348685;

pub const RECORD_BYTES: usize = 61440;

// The lines of the record slice, or of the refusal.
pub(crate) fn put_outcome<const N: usize>(
    out: &mut ArrayVec<u8, N>,
    o: Result<usize, Refusal>,
    bytes: &[u8],
)
    requires { (array_vec_len out.old + report_bytes ≤ N) × (length bytes.now ≡ record_bytes) × OutcomeSound o bytes.now }
    ensures { Written out.old.items out.new.items (outcome_lines o bytes.now) report_bytes }
{
    match o {
        Ok(_) => print::listing::put_record(out, bytes),
        Err(r) => print::put_refusal(out, r),
    }
}

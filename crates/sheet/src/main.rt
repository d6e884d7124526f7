// Reads a sheet from standard input and prints its record, or why there is none.
#![tactic(auto)]

ghost use Rattle.std.specs.Prelude.{◌+◌, ◌≤◌, OnOk, IfSome};
ghost use Rattle.std.specs.Io.KnownBytes.{Appends};
ghost use Rattle.arrayvec.specs.ArrayVec.{array_vec_len};
ghost use Rattle.print.specs.Decimal.{Written};
ghost use Rattle.reports.specs.outcome_lines.PolicyLines.{report_bytes};
ghost use Rattle.sheet.specs.Printed.{printed_for};

use arrayvec::ArrayVec;
use model::limits::TEXT_BYTES;
use reports::outcome_lines::REPORT_BYTES;
use std::alloc::Global;
use std::io::{self, Read, Write};

// One byte more than a sheet may have, to see that it is too long.
const INPUT_BYTES: usize = TEXT_BYTES + 1;

// What is printed for the bytes that were read.
fn put_printed<const N: usize>(out: &mut ArrayVec<u8, N>, s: &[u8])
    requires { array_vec_len out.old + report_bytes ≤ N }
    ensures { Written out.old.items out.new.items (printed_for s.now) report_bytes }
{
    if TEXT_BYTES < s.len() {
        print::put_word(out, b"too long\n");
        return;
    }
    reports::put_sheet(out, s);
}

// Reads a sheet, or one byte more than it may have, and prints what there is to say of it.
fn print_record<R: Read + Drop, W: Write>(
    alloc: Global,
    reader: R,
    writer: &mut W,
) -> io::Result<()>
    ensures { OnOk result (IfSome (R.remaining reader) (λ s. Appends (W.contents writer.old) (W.contents writer.new) (printed_for s))) }
{
    let mut input = Vec::new(alloc);
    reader.take(INPUT_BYTES as u64).read_to_end(&mut input)?;
    let mut out: ArrayVec<u8, REPORT_BYTES> = ArrayVec::new();
    put_printed(&mut out, &input);
    writer.write_all(&out)
}

fn main(rt: HostRuntime) -> io::Result<()> {
    print_record(rt.alloc(), rt.stdin(), &mut rt.stdout())
}

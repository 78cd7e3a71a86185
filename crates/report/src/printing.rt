// From an input to the report on it.
ghost use Rattle.report.specs.Printing.{PrintsReport};
ghost use Rattle.std.specs.Prelude.{IfOk, IfSome};

use sheet::report;
use std::alloc::Allocator;
use std::io::{Read, Write};

// As many bytes of an input as decide: one more than the longest sheet has.
const ENOUGH: u64 = 16_385;

// The length of a list that every report fits.
const ROOM: usize = 96;

// Prints the report on all that an input holds, of which no more is read than decides.
pub(crate) fn print_report<A: Allocator, R: Read + Drop, W: Write>(
    alloc: A,
    input: R,
    output: &mut W,
) -> anyhow::Result<()>
    ensures prints_the_report_on_all_of_it { IfOk result (λ _. IfSome (R.remaining input) (λ bytes. PrintsReport bytes (W.contents output.old) (W.contents output.new))) }
{
    let mut sheet = Vec::new(alloc);
    input.take(ENOUGH).read_to_end(&mut sheet)?;
    let mut text = [0; ROOM];
    let length = report(sheet.as_slice(), &mut text).unwrap();
    output.write_all(&text[0..length])?;
    Ok(())
}

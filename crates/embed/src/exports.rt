// The functions that C code calls: include/zucchinicove.h declares them. Each answers on everything that it may be handed.
ghost use Rattle.embed.specs.Promises.{ReportPromise, VerdictPromise, FitsExactly, RefusedExactly, RunPromise, NeverMissed};

use crate::answers::{ReportAnswer, RunAnswer, VerdictAnswer};
use crate::calls::{judge, run_on};
use run::Job;
use sheet::report;

// The report on a sheet, written over the front of a list.
#[unsafe(no_mangle)]
pub extern "C" fn zucchinicove_report(bytes: &[u8], out: &mut [u8]) -> ReportAnswer
    ensures tells_the_report { ReportPromise bytes.now out.old out.new result }
{
    report(bytes, out).into()
}

// The verdict on the lines of a sheet.
#[unsafe(no_mangle)]
pub extern "C" fn zucchinicove_verdict(bytes: &[u8]) -> VerdictAnswer
    ensures tells_the_verdict { VerdictPromise bytes.now result }
    ensures fits_exactly_where_all_lists_are_met { FitsExactly bytes.now result }
    ensures refused_exactly_where_not_accepted { RefusedExactly bytes.now result }
{
    judge(bytes).into()
}

// Runs a list of jobs of a sheet's lines in a phase of its supply, and fills the slot list.
#[unsafe(no_mangle)]
pub extern "C" fn zucchinicove_run(
    bytes: &[u8],
    phase: u32,
    jobs: &[Job],
    slots: &mut [u16],
) -> RunAnswer
    ensures tells_the_run { RunPromise bytes.now phase jobs.now slots.old slots.new result }
    ensures no_miss_where_it_fits { NeverMissed bytes.now jobs.now result }
{
    run_on(bytes, phase, jobs, slots).into()
}

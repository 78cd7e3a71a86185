// The verdict of a sheet, and a run on its lines, before they cross to C code.
ghost use Rattle.embed.specs.Promises.{Judges, RunsOnSheet};

use run::{Job, Outcome};
use sheet::{SheetRefusal, from_bytes};

// The verdict on the lines of a sheet, or why the sheet is refused.
pub(crate) fn judge(bytes: &[u8]) -> Result<Option<u16>, SheetRefusal>
    ensures { Judges bytes.now result }
{
    Ok(from_bytes(bytes)?.verdict())
}

// Runs a list of jobs of a sheet's lines in a phase of its supply, and fills the slot list. The run's own refusals are not
// about the sheet's bytes.
pub(crate) fn run_on(
    bytes: &[u8],
    phase: u32,
    jobs: &[Job],
    slots: &mut [u16],
) -> Result<Outcome, SheetRefusal>
    ensures { RunsOnSheet bytes.now phase jobs.now slots.old slots.new result }
{
    let roster = from_bytes(bytes)?;
    Ok(roster.run(phase, jobs, slots)?)
}

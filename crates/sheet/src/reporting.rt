// The report on a sheet.
ghost use Rattle.std.specs.Prelude.{◌≡◌, ◌≤◌, length};
ghost use Rattle.roster.specs.Working.{rows_in, watched_in};
ghost use Rattle.sheet.specs.Drafts.{drafted};
ghost use Rattle.sheet.specs.Reports.{figures, refusal_text, Tells, Reported};

use crate::digits::digits;
use crate::draft::Draft;
use crate::reading::from_bytes;
use crate::sheet_refusal::SheetRefusal;
use refusal::Refusal;
use roster::Roster;
use supply::Named;

// The line that says why a sheet is refused.
fn refusal_line(refusal: SheetRefusal) -> Draft
    ensures { drafted result ≡ refusal_text refusal }
{
    let why = refusal.refusal;
    let mut draft = Draft::none();
    draft.push_all(&[
        b"refused ",
        digits(u32::from(why.reason.number())).as_slice(),
        b" ",
        why.layer.word().as_bytes(),
        b" record ",
        digits(refusal.record).as_slice(),
        b" byte ",
        digits(refusal.byte).as_slice(),
        b"\n",
    ]);
    draft
}

// The lines with the figures of a roster, before the verdict.
fn counts(roster: &Roster<Named>) -> Draft
    ensures text { drafted result ≡ figures (rows_in roster.now) (watched_in roster.now) }
    ensures room { length (drafted result) ≤ 56 }
{
    let mut draft = Draft::none();
    draft.push_all(&[
        b"lines ",
        digits(roster.lines().len() as u32).as_slice(),
        b"\nrest ",
        digits(u32::from(roster.lines().first_rest())).as_slice(),
        b"\nwatched ",
        digits(roster.watched().len() as u32).as_slice(),
        b"\n",
    ]);
    draft
}

// The four lines on a roster.
fn figures_text(roster: &Roster<Named>) -> Draft
    ensures { Tells roster.now (drafted result) }
{
    let mut draft = counts(roster);
    match roster.verdict() {
        Some(t) => draft.push_all(&[b"overloaded ", digits(u32::from(t)).as_slice(), b"\n"]),
        None => draft.push_all(&[b"fits\n"]),
    }
    draft
}

// The report on a sheet, written over the front of a list: how many lines it has, where they rest first, how many
// deadlines are watched, and the verdict; or one line that says why the sheet is refused.
pub fn report(bytes: &[u8], out: &mut [u8]) -> Result<usize, Refusal>
    ensures tells_figures_or_refusal { Reported bytes.now out.old out.new result }
{
    match from_bytes(bytes) {
        Ok(roster) => figures_text(&roster).hand_over(out),
        Err(refusal) => refusal_line(refusal).hand_over(out),
    }
}

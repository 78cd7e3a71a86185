// The jobs that lines release where each brings one in every period from 0 on, at full cost: those that are due by an instant t.
ghost use Rattle.std.specs.Prelude.{◌≡◌, ℕ, ◌+◌, ◌<◌, ◌≤◌, false, [], ◌∷◌, length};
ghost use Rattle.analysis.specs.Legal.{released_at, witness};
ghost use Rattle.lines.specs.Of.{rows_of};
ghost use Rattle.lines.specs.Rest.{some, divides};
ghost use Rattle.roster.specs.Lent.{written, fronted};
ghost use Rattle.std.specs.Option.{option_to_list};

use lines::{Line, Lines};
use run::Job;

// (Lines, a release and an end are handed on as they are: the release is another in each step, and one struct for three calls is
// no plainer.)

// How many there are.
pub(crate) fn number_released(lines: &Lines, t: u16) -> u32
    ensures { result ≡ length (witness (rows_of lines.now) t) }
{
    lines.iter().map(|line| u32::from(line.count(t))).sum()
}

// The job that the line of a number releases at an instant, if it releases one there that is due by t.
fn released_job(number: u8, line: &Line, release: u16, t: u16) -> Option<Job>
    ensures { option_to_list result ≡ released_at number (line.now.row ∷ []) t release }
{
    let row = line.row();
    let due = u32::from(release) + u32::from(row.deadline);
    let releases = release % row.period == 0 && due <= u32::from(t);
    releases.then_some(Job {
        line: number,
        release,
        cost: row.cost,
    })
}

// Writes the jobs that the lines release at an instant, by line, from a place on, and answers the place behind them.
fn write_at(lines: &Lines, release: u16, t: u16, list: &mut [Job], start: usize) -> usize
    requires { start + length (released_at 0 (rows_of lines.now) t release) ≤ length list.old }
    ensures place { result ≡ start + length (released_at 0 (rows_of lines.now) t release) }
    ensures list { list.new ≡ written start (released_at 0 (rows_of lines.now) t release) list.old }
{
    // Counted along, since a line may bring no job: a `zip` with the places would lose the place behind the last job.
    let mut place = start;
    for (number, line) in lines.iter().enumerate() {
        if let Some(job) = released_job(number as u8, &line, release, t) {
            list[place] = job;
            place += 1;
        }
    }
    place
}

// The first instant after another, and before an end, at which a line releases a job; the end where there is none.
fn next_release(lines: &Lines, after: u16, end: u16) -> u16
    requires { after < «end» }
    ensures later { after < result }
    ensures bound { result ≤ «end» }
    ensures none_between { (k : ℕ) → after < k → k < result → some (divides k) (rows_of lines.now) ≡ false }
{
    // A loop: `map(..).fold(end, min)` says the same in as many words.
    let mut first = u32::from(end);
    for line in lines.iter() {
        let period = line.row().period;
        first = first.min(u32::from(after) + u32::from(period - after % period));
    }
    first as u16
}

// Writes them at the front of a list, by release and then line, and leaves what stands behind them.
pub(crate) fn write_released(lines: &Lines, t: u16, list: &mut [Job])
    requires { length (witness (rows_of lines.now) t) ≤ length list.old }
    ensures { list.new ≡ fronted (witness (rows_of lines.now) t) list.old }
{
    let mut place = 0;
    let mut release = 0;

    // A loop from release to release: each starts at the last one, and the place goes on from one to the next.
    while release < t {
        place = write_at(lines, release, t, list, place);
        release = next_release(lines, release, t);
    }
}

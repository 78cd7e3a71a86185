// Lists of jobs: the witness by the definition, and random lists that callers may make.
use crate::figures::{at, demand};
use lines::Row;
use run::Job;
use short_list::ShortList;
use trial_tools::{Generator, Random, job, may_release};

// Random lists have releases below this instant.
const RELEASES: u16 = 60;

// The job that fills a list.
pub(crate) const NO_JOB: Job = job!(0, 0, 0);

// Whether a line brings a job, if one comes at 0 and then one in each period at full cost, and whether it is due by t.
fn brings(row: &Row, job: &Job, t: u16) -> bool {
    job.release.checked_rem(row.period) == Some(0)
        && job.release.saturating_add(row.deadline) <= t
        && job.cost == row.cost
}

// Whether a list has for each line its jobs from 0 on that are due by t, at full cost, by release and then line: each of its jobs is
// one of them and comes behind the one before, and together they cost what all of them do.
pub(crate) fn is_witness(jobs: &[Job], rows: &[Row], t: u16) -> bool {
    let mut before = None;
    let mut cost = 0u16;
    for job in jobs {
        let Some(row) = rows.get(usize::from(job.line)) else {
            return false;
        };
        let place = Some((job.release, job.line));
        if !brings(row, job, t) || place <= before {
            return false;
        }
        before = place;
        cost = cost.saturating_add(job.cost);
    }
    cost == at(&demand(rows), t)
}

// A list that is legal and in order. (It has room for all jobs: 4 lines bring 80 at most.)
pub(crate) fn legal(rows: &[Row], random: &mut Random) -> ShortList<Job, 256> {
    let mut jobs = ShortList::none(NO_JOB);
    for release in 0..RELEASES {
        for line in 0..4 {
            let Some(row) = rows.get(usize::from(line)) else {
                break;
            };
            if random.below(3) != 0 && may_release(jobs.as_slice(), line, row.period, release) {
                let cost = row.cost.saturating_sub(random.below(2)).max(1);
                let _ = jobs.push(job!(line, release, cost));
            }
        }
    }
    jobs
}

use lines::Lines;
use run::Job;

// When a job is due: its release where its line is not there. (The run has its own, of a checked list, where the line is there and
// nothing saturates.)
pub(crate) fn due(lines: &Lines, job: Job) -> u16 {
    match lines.get(usize::from(job.line)) {
        Some(line) => job.release.saturating_add(line.row().deadline),
        None => job.release,
    }
}

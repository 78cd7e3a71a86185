ghost use Rattle.std.specs.Prelude.{◌≡◌, ◌+◌, ◌==◌, nat_le};
ghost use Rattle.std.specs.List.{filter, list_all};

use run::Job;

// Whether a line may release a job at an instant behind others: each of its jobs came a period before.
pub fn may_release(jobs: &[Job], line: u8, period: u16, at: u16) -> bool
    ensures each_came_a_period_before { result ≡ list_all (λ job. nat_le (job.release + period) at) (filter (λ job. job.line == line) jobs.now) }
{
    jobs.iter().filter(|job| job.line == line).all(|job| u32::from(job.release) + u32::from(period)
        <= u32::from(at))
}

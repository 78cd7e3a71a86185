// What is proved of lines for all figures: each function carries a law, and does nothing.
ghost use Rattle.std.specs.Prelude.{◌≡◌, ℕ, ◌<◌, ◌≤◌, ◌↔◌, true, nat_le};
ghost use Rattle.lines.specs.Demand.{count};
ghost use Rattle.lines.specs.Jobs.{release_of, deadline_of, how_many};
ghost use Rattle.lines.specs.Laws.{LineLaws, RestLaws, DeadlineLaws, Among, FewerLaws};
ghost use Rattle.lines.specs.Of.{rows_of};
ghost use Rattle.lines.specs.Rest.{resting, deadline_after};

use crate::line::Line;
use crate::table::Lines;

// A line's count, its first deadline after t and its rest points are what its jobs say, of which one is released every period
// from 0 on. Counted at t are just the jobs that are due by t; among the first n jobs, for each n from t on, those are as many as
// the count says. A rest point is where no job that is released before is due after. So the count is monotone and splits there.
pub fn line_counts_and_rests_by_its_jobs(line: &Line)
    ensures counts_just_the_jobs_due { (t k : ℕ) → (k < count line.now.row t) ↔ (deadline_of line.now.row k ≤ t) }
    ensures counts_as_many_as_are_due { (t n : ℕ) → t ≤ n → count line.now.row t ≡ how_many (λ k. nat_le (deadline_of line.now.row k) t) n }
    ensures deadline_after_is_the_first_later { (t : ℕ) → (deadline_after line.now.row t ≡ deadline_of line.now.row (count line.now.row t)) × ((k : ℕ) → (t < deadline_of line.now.row k) ↔ (deadline_after line.now.row t ≤ deadline_of line.now.row k)) }
    ensures rests_where_no_job_lies_across { (t : ℕ) → (resting t line.now.row ≡ true) ↔ ((k : ℕ) → release_of line.now.row k < t → deadline_of line.now.row k ≤ t) }
    ensures count_and_work_grow_and_split { LineLaws line.now.row }
{}

// The hyperperiod is the least common multiple, and the first rest point comes no later.
pub fn hyperperiod_is_least_and_rest_within(lines: &Lines)
    ensures least_multiple_and_first_rest_within { RestLaws (rows_of lines.now) }
{}

// The deadlines up to n rise, and are all deadlines up to n and nothing else.
pub fn deadlines_rise_and_are_all(lines: &Lines, n: u16)
    ensures rise_and_hold_just_the_deadlines { DeadlineLaws (rows_of lines.now) n }
{}

// Lines that are all among others rest no later than those, and their full list is contained.
pub fn fewer_lines_rest_no_later(few: &Lines, all: &Lines)
    ensures rest_no_later_and_list_contained { Among (rows_of few.now) (rows_of all.now) → FewerLaws (rows_of few.now) (rows_of all.now) }
{}

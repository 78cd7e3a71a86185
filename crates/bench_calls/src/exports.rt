// The functions that the benchmark calls. Each answers on everything that it may be handed.
ghost use Rattle.bench_calls.specs.Promises.{Judged, Ran, Watches, verdicts_as, end_as, piled, Piles};
ghost use Rattle.std.specs.Prelude.{◌≡◌, ◌≤◌, ℕ, MatchOption, Option, unwrap_or};
ghost use Rattle.run.specs.declared.outcome.Outcome as outcome;
ghost use Rattle.supply.specs.Share.{LawfulShare};
ghost use Rattle.supply.specs.Timetable.{timetable, LawfulTimetable};
ghost use Rattle.supply.specs.Whole.{whole};

use crate::answers::{RunEnd, Verdicts};
use crate::figures::Figures;
use crate::often::{enrol, judge, run};
use run::Job;
use supply::{Share, Supply, Timetable, Whole};

// The verdict on lines on the whole processor.
#[unsafe(no_mangle)]
pub extern "C" fn bench_whole(lines: &[Figures], times: u32) -> Verdicts
    ensures judged_exactly_where_full { (v : Option (Option ℕ)) × Judged (Unit {0}) whole lines.now v × (result ≡ verdicts_as v) }
{
    judge(Whole, lines, times).into()
}

// The verdict on a timetable.
fn on_timetable(length: u8, word: u64, lines: &[Figures], times: u32) -> Option<Option<u16>>
    ensures { Judged (LawfulTimetable length word) (timetable length word) lines.now result }
{
    judge(Timetable::new(length, word).ok()?, lines, times)
}

#[unsafe(no_mangle)]
pub extern "C" fn bench_timetable(length: u8, word: u64, lines: &[Figures], times: u32) -> Verdicts
    ensures judged_exactly_where_makeable_and_full { (v : Option (Option ℕ)) × Judged (LawfulTimetable length word) (timetable length word) lines.now v × (result ≡ verdicts_as v) }
{
    on_timetable(length, word, lines, times).into()
}

// A share over a supply, where it may be made.
fn over<B: Supply + Drop>(below: B, given: u8, of: u8) -> Option<Share<B>>
    ensures { MatchOption result (LawfulShare (B.meaning below) given of → ⊥) (λ s. LawfulShare (B.meaning below) given of × (s.below ≡ below) × (s.pattern.given ≡ given) × (s.pattern.of ≡ of)) }
{
    Share::new(below, given, of).ok()
}

// The verdict on a pile of one, two or three shares of `given` in `of` over the whole processor.
fn on_pile(shares: u8, given: u8, of: u8, lines: &[Figures], times: u32) -> Option<Option<u16>>
    ensures { Judged ((1 ≤ shares) × (shares ≤ 3) × Piles given of shares) (piled given of shares) lines.now result }
{
    let one = over(Whole, given, of)?;
    if shares == 1 {
        return judge(one, lines, times);
    }
    let two = over(one, given, of)?;
    if shares == 2 {
        return judge(two, lines, times);
    }
    let three = over(two, given, of)?;
    if shares == 3 {
        return judge(three, lines, times);
    }
    None
}

#[unsafe(no_mangle)]
pub extern "C" fn bench_pile(
    shares: u8,
    given: u8,
    of: u8,
    lines: &[Figures],
    times: u32,
) -> Verdicts
    ensures judged_exactly_where_makeable_and_full { (v : Option (Option ℕ)) × Judged ((1 ≤ shares) × (shares ≤ 3) × Piles given of shares) (piled given of shares) lines.now v × (result ≡ verdicts_as v) }
{
    on_pile(shares, given, of, lines, times).into()
}

// Runs a list of jobs on the whole processor, and fills the slot list; where nothing is run, it stays.
#[unsafe(no_mangle)]
pub extern "C" fn bench_run(
    lines: &[Figures],
    jobs: &[Job],
    slots: &mut [u16],
    times: u32,
) -> RunEnd
    ensures run_exactly_where_full_and_no_check_fails { (o : Option outcome.Outcome) × Ran lines.now jobs.now slots.old slots.new o × (result ≡ end_as o) }
{
    run(lines, jobs, slots, times).into()
}

// Opens a roster on the whole processor, enrols lines, and answers how many deadlines are watched then.
#[unsafe(no_mangle)]
pub extern "C" fn bench_enrol(lines: &[Figures]) -> usize
    ensures counts_watched_of_a_full_table { (watched : Option ℕ) × Watches lines.now watched × (result ≡ unwrap_or watched 0) }
{
    enrol(lines).unwrap_or(0)
}

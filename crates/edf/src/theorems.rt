ghost use Rattle.edf.specs.Theorems.{BusyWindow, Crowd, Exactness, Existence, Feasibility, FiniteSufficiency, Optimality, RunDetermined, RunExact, RunOptimal, Sufficiency, Uniqueness};

// Some schedule keeps the law at every slot.
pub fn law_has_a_schedule()
    ensures some_schedule_keeps_it { Existence }
{}

// The law determines the schedule.
pub fn law_determines_the_schedule()
    ensures schedules_agree { Uniqueness }
{}

// Where any schedule meets a list, every window has room for its load.
pub fn met_list_has_room_everywhere()
    ensures every_window_has_room { Crowd }
{}

// Where a job is late under the law, some window that ends there is overloaded.
pub fn late_job_ends_an_overloaded_window()
    ensures some_window_is_overloaded { BusyWindow }
{}

// Where a job is late under the law, no schedule meets the list.
pub fn late_under_the_law_is_late_always()
    ensures no_schedule_meets_it { Optimality }
{}

// Where every window has room, the law meets the list, on all slots or up to a stop.
pub fn room_everywhere_suffices()
    ensures endless_law_meets_it { Sufficiency }
    ensures stopped_law_meets_it { FiniteSufficiency }
{}

// A list can be met exactly when every window has room.
pub fn met_exactly_with_room()
    ensures schedule_exactly_where_room { Feasibility }
{}

// A schedule that follows the law and stops meets the list exactly when no job is ever late.
pub fn stopped_law_meets_exactly_on_time()
    ensures meets_exactly_on_time { Exactness }
{}

// A run is determined by the list, says truly whether its schedule meets it, and misses a deadline only where no schedule
// meets it.
pub fn runs_are_determined_exact_and_optimal()
    ensures one_outcome_and_schedule { RunDetermined }
    ensures met_exactly_where_it_meets { RunExact }
    ensures miss_leaves_no_schedule { RunOptimal }
{}

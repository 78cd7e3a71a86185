ghost use Rattle.analysis.specs.Example.{Example};
ghost use Rattle.analysis.specs.Theorems.{CutExact, FullListExact, LinesFollow, ReachedExact, VerdictExact, WindowBound, WitnessAsks};

// It is enough to look at the deadlines up to the first rest point.
pub fn full_list_is_exact()
    ensures full_list_says_enough { FullListExact }
{}

// A deadline that an accepted certificate speaks for need not be looked at.
pub fn certified_cut_keeps_exact()
    ensures list_stays_exact { CutExact }
{}

// In no window does a legal list bring more work than demand at the window's length.
pub fn demand_bounds_every_window()
    ensures load_within_demand { WindowBound }
{}

// The witness list is legal, and brings all of the demand.
pub fn witness_is_legal_and_asks_demand()
    ensures legal_and_asks_demand { WitnessAsks }
{}

// After any calls the watch list is exact, and the lines follow from the calls' arguments alone.
pub fn reached_list_is_exact_and_lines_follow()
    ensures reached_list_is_exact { ReachedExact }
    ensures lines_follow_from_calls { LinesFollow }
{}

// After any calls, over every supply, the verdict is exact.
pub fn verdict_is_exact_after_any_calls()
    ensures verdict_is_exact { VerdictExact }
{}

// The theorems speak of something: lines, a history, a verdict, a legal list and a certificate are there.
pub fn every_premise_can_be_met()
    ensures premises_met_by_an_example { Example }
{}

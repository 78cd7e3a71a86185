// Why the verdict is right: exact watch lists, legal release lists and histories. Each function carries a theorem, and does nothing.
#![tactic(auto)]

mod theorems;

pub use theorems::{
    certified_cut_keeps_exact, demand_bounds_every_window, every_premise_can_be_met,
    full_list_is_exact, reached_list_is_exact_and_lines_follow, verdict_is_exact_after_any_calls,
    witness_is_legal_and_asks_demand,
};

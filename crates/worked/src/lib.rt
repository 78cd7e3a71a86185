// The worked figures, as one statement that the check computes. The function carries it, and does nothing.
#![tactic(auto)]

ghost use Rattle.worked.specs.Figures.{Figures};

// Every worked figure is right.
pub fn documented_figures_hold()
    ensures every_figure_holds { Figures }
{}

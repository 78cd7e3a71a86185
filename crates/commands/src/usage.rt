// What to type, where the words of a line are wrong.
use std::fmt;

#[derive(Clone, Copy)]
pub enum Usage {
    // The line is no text.
    Text,
    // There is no such command.
    Command,
    // A command that takes no words has some behind it.
    Alone,
    Open,
    Count,
    Least,
    Survey,
    Enrol,
    Strike,
    Recost,
    Cut,
    Counts,
    Demand,
    Run,
    Explain,
    Read,
}

fn words(usage: Usage) -> &'static str {
    match usage {
        Usage::Text => "the line is no text; help lists the commands",
        Usage::Command => "help lists the commands",
        Usage::Alone =>
            "lines, rest, watched, verdict, witness, write and help stand alone on their line",
        Usage::Open =>
            "open whole or open timetable L NUMBER, either followed by share S F; L, S and F up to 255",
        Usage::Count => "count PHASE SLOTS, with a phase up to 4294967295 and up to 65535 slots",
        Usage::Least => "least SLOTS, with up to 65535 slots",
        Usage::Survey =>
            "survey T/D/C T/D/C .., period, deadline and cost of each line, up to 65535",
        Usage::Enrol => "enrol PERIOD DEADLINE COST, each up to 65535",
        Usage::Strike => "strike LINE, with a number up to 255; lines shows the numbers",
        Usage::Recost =>
            "recost LINE COST, with a number up to 255 and a cost up to 65535; lines shows the numbers",
        Usage::Cut =>
            "cut DEADLINE DIVISOR C:W C:W .., deadline and weight of each cite, all up to 65535",
        Usage::Counts => "counts INSTANT, up to 65535",
        Usage::Demand => "demand INSTANT, up to 65535",
        Usage::Run =>
            "run witness, or run PHASE I@R:C I@R:C .., line, release and cost of each job; a phase up to 4294967295, a line up to 255, the others up to 65535",
        Usage::Explain => "explain DEADLINE, up to 65535",
        Usage::Read => "read HEX, two hex digits to a byte",
    }
}

impl fmt::Display for Usage {
    fn fmt<W: fmt::Write>(&self, f: &mut fmt::Formatter<W>) -> fmt::Result {
        f.write_str(words(*self))
    }
}

// One conversation: the roster that is open, and the commands.
mod changes;
mod cuts;
mod questions;
mod runs;
mod sheets;
mod witnesses;

use commands::{Obey, Trouble, Usage, ask, named, opened};
use explanations::Certificate;
use grammar::Fields;
use roster::Roster;
use sheet::supply_of;
use std::alloc::Global;
use supply::{Bottom, Named, Whole};

// The commands, one to a line.
const HELP: &str = "open whole
open whole share S F
open timetable L NUMBER
open timetable L NUMBER share S F
count PHASE SLOTS
least SLOTS
survey T/D/C T/D/C ..
enrol PERIOD DEADLINE COST
strike LINE
recost LINE COST
cut DEADLINE DIVISOR C:W C:W ..
lines
rest
watched
counts INSTANT
demand INSTANT
verdict
witness
run PHASE I@R:C I@R:C ..
run witness
explain DEADLINE
write
read HEX
help
";

// What stands alone on its line.
#[derive(Clone, Copy)]
enum Question {
    Help,
    Lines,
    Rest,
    Watched,
    Verdict,
    Witness,
    Write,
}

// What a name stands for. The commands that ask the supply are others' to know.
#[derive(Clone, Copy)]
enum Command {
    Question(Question),
    Open,
    Enrol,
    Strike,
    Recost,
    Cut,
    Counts,
    Demand,
    Run,
    Explain,
    Read,
}

const COMMANDS: [(&str, Command); 17] = [
    ("help", Command::Question(Question::Help)),
    ("open", Command::Open),
    ("enrol", Command::Enrol),
    ("strike", Command::Strike),
    ("recost", Command::Recost),
    ("cut", Command::Cut),
    ("lines", Command::Question(Question::Lines)),
    ("rest", Command::Question(Question::Rest)),
    ("watched", Command::Question(Question::Watched)),
    ("counts", Command::Counts),
    ("demand", Command::Demand),
    ("verdict", Command::Question(Question::Verdict)),
    ("witness", Command::Question(Question::Witness)),
    ("run", Command::Run),
    ("explain", Command::Explain),
    ("write", Command::Question(Question::Write)),
    ("read", Command::Read),
];

// The command that a name stands for.
fn find(name: &str) -> Option<Command> {
    for (known, command) in &COMMANDS {
        if *known == name {
            return Some(*command);
        }
    }
    None
}

// What the console holds between two lines.
#[derive(Drop)]
pub(crate) struct Session {
    heap: Global,
    roster: Roster<Named>,
    // The fields by which a sheet names the supply that is open.
    fields: Fields,
    // The certificates of the cuts since the watch list was last set in full.
    cuts: Vec<Certificate>,
}

impl Session {
    // A new conversation, on the whole processor.
    pub(crate) fn new(heap: Global) -> Session {
        Session {
            heap,
            roster: Roster::open(Named::Plain(Bottom::Whole(Whole))),
            fields: Fields::whole(),
            cuts: Vec::new(heap),
        }
    }

    // Opens a roster without lines on the supply that is named.
    fn open(&mut self, words: &[&str]) -> Result<String, Trouble> {
        let fields = named(words)?;
        self.roster = Roster::open(supply_of(fields)?);
        self.fields = fields;
        self.cuts.clear();
        opened(self.heap, self.roster.supply())
    }

    // What a question answers.
    fn answer(&self, question: Question) -> Result<String, Trouble> {
        match question {
            Question::Help => Ok(String::from_str(self.heap, HELP)?),
            Question::Lines => self.lines(),
            Question::Rest => self.rest(),
            Question::Watched => self.watched(),
            Question::Verdict => self.verdict(),
            Question::Witness => self.witness(),
            Question::Write => self.write(),
        }
    }
}

impl Obey for Session {
    fn obey(&mut self, name: &str, words: &[&str]) -> Result<String, Trouble> {
        let Some(command) = find(name) else {
            return ask(self.heap, self.roster.supply(), name, words);
        };
        match command {
            Command::Question(question) if words.is_empty() => self.answer(question),
            Command::Question(_) => Err(Trouble::Usage(Usage::Alone)),
            Command::Open => self.open(words),
            Command::Enrol => self.enrol(words),
            Command::Strike => self.strike(words),
            Command::Recost => self.recost(words),
            Command::Cut => self.cut(words),
            Command::Counts => self.counts(words),
            Command::Demand => self.demand(words),
            Command::Run => self.run(words),
            Command::Explain => self.explain(words),
            Command::Read => self.read(words),
        }
    }
}

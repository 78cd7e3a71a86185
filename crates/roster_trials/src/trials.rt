// Random rosters: calls on them, verdicts and runs, each beside what the definitions say.
use crate::certificate::Certificate;
use crate::figures::{Deadlines, Figures, at, deadlines, given, least};
use crate::jobs::{NO_JOB, is_witness, legal};
use crate::model::Model;
use roster::{Call, Roster, judged_run};
use run::{Job, Outcome};
use short_list::ShortList;
use supply::Named;
use trial_tools::{Generator, Plan, Random, Tally};

// How many rosters are tried on each supply.
const ROSTERS: u16 = 250;

// The highest cost.
const DEAREST: u16 = 4;

// How often costs change on each roster.
const COSTS: u16 = 3;

// How many certificates are tried before each change.
const CUTS: u16 = 5;

// The periods of random lines: each divides 120.
static PERIODS: [u16; 10] = [3, 4, 5, 6, 8, 10, 12, 15, 20, 24];

// The supplies: the whole processor, timetables, and shares of both.
static PLANS: [Plan; 9] = [
    Plan::WHOLE,
    Plan {
        length: 4,
        word: 3,
        taken: 1,
        turn: 1,
    },
    Plan {
        length: 5,
        word: 29,
        taken: 1,
        turn: 1,
    },
    Plan {
        length: 7,
        word: 0x5b,
        taken: 1,
        turn: 1,
    },
    Plan {
        length: 1,
        word: 1,
        taken: 2,
        turn: 3,
    },
    Plan {
        length: 1,
        word: 1,
        taken: 3,
        turn: 5,
    },
    Plan {
        length: 1,
        word: 1,
        taken: 7,
        turn: 8,
    },
    Plan {
        length: 4,
        word: 7,
        taken: 3,
        turn: 4,
    },
    Plan {
        length: 6,
        word: 0x37,
        taken: 1,
        turn: 2,
    },
];

// A group of which nothing is compared yet.
macro_rules! none {
    ($group:expr) => {
        Tally {
            group: $group,
            compared: 0,
            differ: 0,
        }
    };
}

// What every trial works with: the groups of comparisons, and the random numbers.
#[derive(Clone, Copy)]
struct Trials {
    calls: Tally,
    cuts: Tally,
    refused_cuts: Tally,
    states: Tally,
    fits: Tally,
    overloads: Tally,
    witnesses: Tally,
    lists: Tally,
    judged: Tally,
    random: Random,
}

// Nothing is compared yet.
const START: Trials = Trials {
    calls: none!("enrols, strikes and recosts"),
    cuts: none!("cuts that are made"),
    refused_cuts: none!("cuts that are refused"),
    states: none!("lines and watch lists after calls"),
    fits: none!("verdicts of rosters that fit"),
    overloads: none!("verdicts of rosters that do not"),
    witnesses: none!("witnesses and their runs"),
    lists: none!("runs of legal lists on rosters that fit"),
    judged: none!("verdicts and runs of rosters made in one call"),
    random: Random { state: 1 },
};

// A line more, with a cost up to a bound.
fn enrol(random: &mut Random, dearest: u16) -> Call<'static> {
    let period = random.of(&PERIODS);
    Call::Enrol(random.row(period, dearest))
}

// A roster on trial, what it should be, and what any slots in a row of its supply are sure to hold.
#[derive(Drop)]
struct Trial {
    roster: Roster<Named>,
    model: Model,
    plan: Plan,
    least: Figures,
}

impl Trial {
    // The number of a line that is there.
    fn line(&self, random: &mut Random) -> u8 {
        let many = self.model.rows.len();
        random.below(many as u16) as u8
    }

    // Another cost for a line.
    fn recost(&self, random: &mut Random) -> Call<'static> {
        Call::Recost {
            line: self.line(random),
            cost: random.up_to(DEAREST),
        }
    }

    // Makes a call that is not refused.
    fn make(&mut self, calls: &mut Tally, call: Call) {
        calls.note(self.roster.make(call).is_ok());
        self.model.make(call);
    }

    // The deadlines of certificates: those that are watched, or now and then all up to the first rest point.
    fn list(&self, random: &mut Random) -> Deadlines {
        if random.below(4) == 0 {
            return deadlines(self.model.rows.as_slice());
        }
        self.model.watched
    }

    // A certificate: it is accepted exactly where it is right.
    fn cut(&mut self, trials: &mut Trials) {
        let list = self.list(&mut trials.random);
        let certificate = Certificate::random(&mut trials.random, list.as_slice());
        let call = Call::Cut {
            deadline: certificate.deadline,
            divisor: certificate.divisor,
            cites: certificate.bytes.as_slice(),
        };
        if self.model.accepts(&certificate, &self.least) {
            self.make(&mut trials.cuts, call);
        } else {
            trials.refused_cuts.note(self.roster.make(call).is_err());
        }
    }

    // The run of a list of jobs, which misses a deadline at an instant or ends with all met.
    fn run(&self, jobs: &[Job], phase: u32, misses: Option<u16>) -> bool {
        let mut entries = [0; 400];
        match self.roster.run(phase, jobs, &mut entries) {
            Ok(Outcome::Missed { at, .. }) => misses == Some(at),
            Ok(Outcome::Met) => misses.is_none(),
            Err(_) => false,
        }
    }

    // The witness of an overload at t: the jobs by the definition, and a phase that begins with the fewest slots up to t. Its run
    // misses a deadline at t.
    fn shows(&self, t: u16) -> bool {
        let mut list = [NO_JOB; 256];
        let Ok(witness) = self.roster.witness(&mut list) else {
            return false;
        };
        let jobs = &list[..witness.jobs.min(256)];
        is_witness(jobs, self.model.rows.as_slice(), t)
            && at(&given(&self.plan, witness.phase), t) == at(&self.least, t)
            && self.run(jobs, witness.phase, Some(t))
    }

    // Whether a legal list is met, in any phase.
    fn meets(&self, random: &mut Random) -> bool {
        let jobs = legal(self.model.rows.as_slice(), random);
        let phase = u32::from(random.below(1000));
        self.run(jobs.as_slice(), phase, None)
    }

    // What the roster holds, its verdict, and what shows it: the witness where it is overloaded, and the run of a legal list
    // where it fits.
    fn judge(&self, trials: &mut Trials) {
        trials.states.note(self.model.is_held(&self.roster));
        let expected = self.model.overload(&self.least);
        let agreed = self.roster.verdict() == expected;
        match expected {
            Some(t) => {
                trials.overloads.note(agreed);
                trials.witnesses.note(self.shows(t));
            }
            None => {
                trials.fits.note(agreed);
                trials.lists.note(self.meets(&mut trials.random));
            }
        }
    }

    // Whether a roster that calls make in one go is the one on trial, gets its verdict, and takes a legal list, which is met where the
    // lines fit. (The generator is a copy, so that what comes next is as if none were drawn.)
    fn is_judged(&self, calls: &[Call], mut random: Random) -> bool {
        let jobs = legal(self.model.rows.as_slice(), &mut random);
        let phase = u32::from(random.below(1000));
        let mut entries = [0; 400];
        let supply = *self.roster.supply();
        let judged = judged_run(supply, calls, phase, jobs.as_slice(), &mut entries);
        let expected = self.model.overload(&self.least);
        let ends = match judged.run {
            Ok(Outcome::Met) => true,
            Ok(Outcome::Missed { .. }) => expected.is_some(),
            Err(_) => false,
        };
        ends && judged.verdict == expected && self.model.is_held(&judged.roster)
    }

    // Certificates, the roster after each, and new costs in turn, and at last a line less.
    fn work(&mut self, trials: &mut Trials) {
        for _ in 0..COSTS {
            for _ in 0..CUTS {
                self.cut(trials);
                self.judge(trials);
            }
            let recost = self.recost(&mut trials.random);
            self.make(&mut trials.calls, recost);
        }
        let strike = Call::Strike(self.line(&mut trials.random));
        self.make(&mut trials.calls, strike);
        self.judge(trials);
    }
}

impl Trials {
    // Tries a roster with random lines.
    fn try_roster(&mut self, supply: Named, plan: Plan, least: Figures) {
        let lines = self.random.up_to(3).saturating_add(1);
        let dearest = self.random.up_to(DEAREST);
        let mut trial = Trial {
            roster: Roster::open(supply),
            model: Model::none(),
            plan,
            least,
        };
        let mut enrols: ShortList<Call, 4> = ShortList::none(Call::Strike(0));
        for _ in 0..lines {
            let enrol = enrol(&mut self.random, dearest);
            let _ = enrols.push(enrol);
            trial.make(&mut self.calls, enrol);
        }
        self.judged
            .note(trial.is_judged(enrols.as_slice(), self.random));
        trial.work(self);
    }

    // Tries rosters on one supply.
    fn try_plan(&mut self, plan: Plan) {
        let Some(supply) = plan.named() else {
            self.states.note(false);
            return;
        };
        let least = least(&plan);
        for _ in 0..ROSTERS {
            self.try_roster(supply, plan, least);
        }
    }
}

// Tries rosters on every supply.
pub(crate) fn compared() -> [Tally; 9] {
    let mut trials = START;
    for plan in &PLANS {
        trials.try_plan(*plan);
    }
    [
        trials.calls,
        trials.cuts,
        trials.refused_cuts,
        trials.states,
        trials.fits,
        trials.overloads,
        trials.witnesses,
        trials.lists,
        trials.judged,
    ]
}

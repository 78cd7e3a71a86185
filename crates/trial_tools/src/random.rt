ghost use Rattle.std.specs.Prelude.{◌≡◌, ℕ, ◌+◌, ◌*◌, ◌/◌, ◌%◌, ◌^◌, ◌<◌, length, max, slice_index_or};

use lines::Row;

// A source of numbers that look random. From the same state come the same numbers.
pub trait Generator {
    // The state behind a number, and that number.
    ghost after: { Self → Self };

    ghost number: { Self → ℕ };

    // The next number.
    fn next(&mut self) -> u64
        ensures takes_the_next_state { self.new ≡ after self.old }
        ensures number_of_that_state { result ≡ number self.old };

    // A number below n, and 0 where n is 0.
    fn below(&mut self, n: u16) -> u16
        ensures takes_the_next_state { self.new ≡ after self.old }
        ensures number_below_n { result ≡ number self.old % max n 1 }
    {
        (self.next() % u64::from(n.max(1))) as u16
    }

    // A number from 1 to n, and 1 where n is 0.
    fn up_to(&mut self, n: u16) -> u16
        ensures takes_the_next_state { self.new ≡ after self.old }
        ensures number_from_1_to_n { result ≡ number self.old % max n 1 + 1 }
    {
        self.below(n) + 1
    }

    // One of a list, and 0 of none.
    fn of(&mut self, list: &[u16]) -> u16
        ensures takes_the_next_state { self.new ≡ after self.old }
        ensures one_of_the_list { length list.now < 2 ^ 16 → result ≡ slice_index_or list.now (number self.old % max (length list.now) 1) 0 }
    {
        let many = list.len().min(0xffff) as u16;
        let place = usize::from(self.below(many));
        list.get(place).copied().unwrap_or(0)
    }

    // A line of a period, due within it, with a cost up to a bound.
    fn row(&mut self, period: u16, dearest: u16) -> Row
        ensures of_that_period { result.period ≡ period }
        ensures due_within_the_period { result.deadline ≡ number self.old % max period 1 + 1 }
        ensures cost_up_to_the_dearest { result.cost ≡ number (after self.old) % max dearest 1 + 1 }
        ensures takes_two_states { self.new ≡ after (after self.old) }
    {
        Row {
            period,
            deadline: self.up_to(period),
            cost: self.up_to(dearest),
        }
    }
}

// A linear congruential generator. Its numbers are the upper halves of its states, since the lower halves repeat soon.
#[derive(Clone, Copy)]
pub struct Random {
    pub state: u32,
}

impl Random {
    // A generator that starts from a seed.
    pub fn new(seed: u32) -> Random
        ensures starts_from_the_seed { result.state ≡ seed }
    {
        Random { state: seed }
    }
}

impl Generator for Random {
    ghost after = { λ random. record { state = (random.state * 1664525 + 1013904223) % 2 ^ 32 } };

    ghost number = { λ random. (random.state * 1664525 + 1013904223) % 2 ^ 32 / 2 ^ 16 };

    fn next(&mut self) -> u64 {
        self.state = self
            .state
            .wrapping_mul(1_664_525)
            .wrapping_add(1_013_904_223);
        u64::from(self.state >> 16)
    }
}

// A linear congruential generator whose states are twice as wide. A program takes its numbers from their upper halves.
#[derive(Clone, Copy)]
pub struct Steps {
    pub state: u64,
}

impl Steps {
    // Steps that start from a seed.
    pub fn new(seed: u64) -> Steps
        ensures starts_from_the_seed { result.state ≡ seed }
    {
        Steps { state: seed }
    }

    // The next state.
    pub fn step(&mut self) -> u64
        ensures takes_the_next_state { self.new.state ≡ (self.old.state * 6364136223846793005 + 1442695040888963407) % 2 ^ 64 }
        ensures answers_that_state { result ≡ self.new.state }
    {
        self.state = self
            .state
            .wrapping_mul(6_364_136_223_846_793_005)
            .wrapping_add(1_442_695_040_888_963_407);
        self.state
    }
}

// Numbers below END from the states of steps, divided by BELOW: of the bits of a state the lower ones repeat soon.
#[derive(Clone, Copy)]
pub struct Upper<const BELOW: u64, const END: u64> {
    pub steps: Steps,
}

impl<const BELOW: u64, const END: u64> Upper<BELOW, END> {
    // Numbers of the steps that start from a seed.
    pub fn new(seed: u64) -> Upper<BELOW, END>
        ensures starts_from_the_seed { result.steps.state ≡ seed }
    {
        Upper {
            steps: Steps::new(seed),
        }
    }
}

impl<const BELOW: u64, const END: u64> Generator for Upper<BELOW, END> {
    ghost after = { λ upper. record { steps = record { state = (upper.steps.state * 6364136223846793005 + 1442695040888963407) % 2 ^ 64 } } };

    ghost number = { λ upper. (upper.steps.state * 6364136223846793005 + 1442695040888963407) % 2 ^ 64 / max BELOW 1 % max END 1 };

    fn next(&mut self) -> u64 {
        self.steps.step() / BELOW.max(1) % END.max(1)
    }
}

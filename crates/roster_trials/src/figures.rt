// Figures of every instant, counted one by one: the slots that a supply gives, and the jobs that lines bring.
use lines::Row;
use short_list::ShortList;
use trial_tools::{Plan, next_place};

// The last instant that is asked for.
pub(crate) const LAST: u16 = 250;

// A figure for each instant from 0 to the last. (An array: there is one for each, no more and no fewer.)
pub(crate) type Figures = [u16; 251];

// Deadlines, rising.
pub(crate) type Deadlines = ShortList<u16, 256>;

// The figure of an instant.
pub(crate) fn at(figures: &Figures, t: u16) -> u16 {
    figures.get(usize::from(t)).copied().unwrap_or(0)
}

// How many slots a supply gives before each instant, in a phase: it begins at a place of the row, and at a place of the
// share's turn.
pub(crate) fn given(plan: &Plan, phase: u32) -> Figures {
    let length = u32::from(plan.length.max(1));
    let mut place = (phase % length) as u8;
    let mut turned = (phase / length % u32::from(plan.turn.max(1))) as u8;
    let mut many = 0u16;
    let mut given = [0; 251];
    for before in given.iter_mut() {
        *before = many;
        if plan.word.wrapping_shr(u32::from(place)) % 2 == 1 {
            if turned < plan.taken {
                many = many.saturating_add(1);
            }
            turned = next_place(turned, plan.turn);
        }
        place = next_place(place, plan.length);
    }
    given
}

// Lowers figures to others, where those are lower.
fn lower(least: &mut Figures, figures: &Figures) {
    for (t, sure) in least.iter_mut().enumerate() {
        if let Some(figure) = figures.get(t) {
            *sure = (*figure).min(*sure);
        }
    }
}

// The fewest slots that any so many in a row hold. (A window that begins later in a phase begins another phase, since those
// are all places of the row at all places of the turn.)
pub(crate) fn least(plan: &Plan) -> Figures {
    let mut least = [u16::MAX; 251];
    for phase in 0..u32::from(plan.length) * u32::from(plan.turn) {
        lower(&mut least, &given(plan, phase));
    }
    least
}

// Adds the cost of the jobs of a line that came by each instant, if one comes at a first instant and one in each period from there.
fn add_jobs(figures: &mut Figures, first: u16, row: &Row) {
    let mut cost = 0u16;
    let mut left = first;
    for figure in figures.iter_mut() {
        if left == 0 {
            cost = cost.saturating_add(row.cost);
            left = row.period;
        }
        *figure = figure.saturating_add(cost);
        left = left.saturating_sub(1);
    }
}

// The cost of all jobs that are due by each instant.
pub(crate) fn demand(rows: &[Row]) -> Figures {
    let mut demand = [0; 251];
    for row in rows {
        add_jobs(&mut demand, row.deadline, row);
    }
    demand
}

// The cost of all jobs that came before each instant: of those at 0 from 1 on.
fn brought(rows: &[Row]) -> Figures {
    let mut brought = [0; 251];
    for row in rows {
        add_jobs(&mut brought, 1, row);
    }
    brought
}

// How many jobs of a line are due by each instant: what they cost, if each costs 1.
pub(crate) fn counts(row: &Row) -> Figures {
    demand(&[Row { cost: 1, ..*row }])
}

// The deadlines up to the first rest point: more is due by such an instant than before, and the lines rest where all that came
// is due. (They rest by the last instant, since random periods divide 120.)
pub(crate) fn deadlines(rows: &[Row]) -> Deadlines {
    let demand = demand(rows);
    let brought = brought(rows);
    let mut deadlines = ShortList::none(0);
    let mut before = 0;
    for t in 1..=LAST {
        let due = at(&demand, t);
        if due > before {
            let _ = deadlines.push(t);
        }
        if due == at(&brought, t) {
            break;
        }
        before = due;
    }
    deadlines
}

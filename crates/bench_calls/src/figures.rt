ghost use Rattle.bench_calls.specs.Promises.{enrolled};
ghost use Rattle.roster.specs.Calling.{call_of};
ghost use Rattle.std.specs.Prelude.{◌≡◌, map};

use lines::Row;
use roster::Call;

// The figures of a line, laid out as C does.
#[repr(C)]
#[derive(Clone, Copy)]
pub struct Figures {
    pub period: u16,
    pub deadline: u16,
    pub cost: u16,
}

impl Figures {
    // The call that enrols a line of these figures.
    fn enrol<'a>(&self) -> Call<'a>
        ensures { call_of result ≡ enrolled self.now }
    {
        Call::Enrol(Row {
            period: self.period,
            deadline: self.deadline,
            cost: self.cost,
        })
    }
}

// The calls that enrol a full table of lines, one after another.
pub(crate) fn enrolments<'a>(lines: &[Figures; 8]) -> [Call<'a>; 8]
    ensures { map call_of result ≡ map enrolled lines.now }
{
    let [a, b, c, d, e, f, g, h] = lines;
    [
        a.enrol(),
        b.enrol(),
        c.enrol(),
        d.enrol(),
        e.enrol(),
        f.enrol(),
        g.enrol(),
        h.enrol(),
    ]
}

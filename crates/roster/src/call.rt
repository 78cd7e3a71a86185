use lines::Row;

// A call that changes a roster.
#[derive(Clone, Copy)]
pub enum Call<'a> {
    Enrol(Row),
    Strike(u8),
    Recost {
        line: u8,
        cost: u16,
    },
    Cut {
        deadline: u16,
        divisor: u16,
        cites: &'a [u8],
    },
}

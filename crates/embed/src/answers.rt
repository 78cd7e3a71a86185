// What C code is answered. include/zucchinicove.h has the same structs, with names for the numbers of kinds and layers: C
// reads a kind as a number, and has the fields of every kind beside it, so they are no enums here.

// Why a call is refused: the reason's number, the layer from 1, the place, the sheet's record and its first byte. All are
// 0 where nothing is refused; record and byte are 0 where it is not the sheet that is refused.
#[repr(C)]
#[derive(Clone, Copy)]
pub struct Refused {
    pub number: u8,
    pub layer: u8,
    pub place: u32,
    pub record: u32,
    pub byte: u32,
}

// The answer of a report: kind 0, refused, or 1, written, with the length of the text.
#[repr(C)]
#[derive(Clone, Copy)]
pub struct ReportAnswer {
    pub kind: u8,
    pub length: usize,
    pub refused: Refused,
}

// The verdict: kind 0, refused; 1, the lines fit; or 2, overloaded, with the deadline.
#[repr(C)]
#[derive(Clone, Copy)]
pub struct VerdictAnswer {
    pub kind: u8,
    pub deadline: u16,
    pub refused: Refused,
}

// How a run ends: kind 0, refused; 1, all met; or 2, missed, with the place of the job and the instant.
#[repr(C)]
#[derive(Clone, Copy)]
pub struct RunAnswer {
    pub kind: u8,
    pub job: u16,
    pub at: u16,
    pub refused: Refused,
}

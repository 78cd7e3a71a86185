use grammar::Fields;
use lines::{Lines, Row};
use short_list::ShortList;

// A sheet that is spelled record by record, and how many records it has. It has room for every sheet that is spelled so, the longest
// with a certificate of 255 cites; more bytes are left out.
#[derive(Clone, Copy)]
pub(crate) struct Draft {
    pub(crate) bytes: ShortList<u8, 1040>,
    records: u16,
}

impl Draft {
    // A sheet that names a supply, with some lines, and is not closed.
    pub(crate) fn open(fields: Fields, lines: &Lines) -> Draft {
        let mut draft = Draft {
            bytes: ShortList::none(0),
            records: 0,
        };
        draft.supply(fields);
        for line in lines.iter() {
            draft.line(line.row());
        }
        draft
    }

    // The whole sheet of some lines alone.
    pub(crate) fn of(fields: Fields, lines: &Lines) -> Draft {
        let mut draft = Draft::open(fields, lines);
        draft.close();
        draft
    }

    // So many bytes of its front, and none of a shorter sheet.
    pub(crate) fn front(&self, length: usize) -> &[u8] {
        self.bytes.as_slice().get(..length).unwrap_or(&[])
    }

    // Bytes that are no record.
    pub(crate) fn raw(&mut self, bytes: &[u8]) {
        let _ = self.bytes.extend_from_slice(bytes);
    }

    // Numbers of two bytes each.
    fn numbers(&mut self, numbers: &[u16]) {
        for number in numbers {
            self.raw(&number.to_be_bytes());
        }
    }

    // A record that begins with a mark and some numbers.
    fn record(&mut self, mark: &[u8], numbers: &[u16]) {
        self.records = self.records.saturating_add(1);
        self.raw(mark);
        self.numbers(numbers);
    }

    // The record that names a supply.
    pub(crate) fn supply(&mut self, fields: Fields) {
        self.record(b"SU", &[]);
        self.raw(&[fields.length]);
        self.raw(&fields.word.to_be_bytes());
        self.raw(&[fields.share, fields.of]);
    }

    // The record of a line.
    pub(crate) fn line(&mut self, row: Row) {
        self.record(b"LN", &[row.period, row.deadline, row.cost]);
    }

    // The record of a certificate, where some number of cites is claimed: the deadlines and weights of its cites by turns.
    pub(crate) fn cut(&mut self, deadline: u16, divisor: u16, number: u8, cites: &[u16]) {
        self.record(b"CU", &[deadline, divisor]);
        self.raw(&[number]);
        self.numbers(cites);
    }

    // The last record, with some count.
    pub(crate) fn close_with(&mut self, count: u16) {
        self.record(b"EN", &[count]);
    }

    // The last record, which counts those before it.
    pub(crate) fn close(&mut self) {
        let before = self.records;
        self.close_with(before);
    }
}

// Writing lines as a sheet.
ghost use Rattle.std.specs.Prelude.{◌≡◌, ◌<◌, length, take, IfOk};
ghost use Rattle.grammar.specs.Records.{line, spelled, opening, closing};
ghost use Rattle.lines.specs.Of.{rows_of};
ghost use Rattle.refusal.specs.Answers.{Answered, left};
ghost use Rattle.roster.specs.Lent.{fronted};
ghost use Rattle.sheet.specs.Drafts.{drafted};
ghost use Rattle.sheet.specs.Writing.{plain_sheet, write_checks, BringsBack};

use crate::draft::Draft;
use crate::supplies::supply_of;
use grammar::Fields;
use lines::{Lines, Row};
use refusal::Refusal;

// The bytes of the first record.
fn opening_bytes(fields: Fields) -> [u8; 13]
    ensures { result ≡ opening fields }
{
    let [w7, w6, w5, w4, w3, w2, w1, w0] = fields.word.to_be_bytes();
    [
        b'S',
        b'U',
        fields.length,
        w7,
        w6,
        w5,
        w4,
        w3,
        w2,
        w1,
        w0,
        fields.share,
        fields.of,
    ]
}

// The bytes of a line's record.
fn line_bytes(row: Row) -> [u8; 8]
    ensures { result ≡ spelled (line row) }
{
    let [t1, t0] = row.period.to_be_bytes();
    let [d1, d0] = row.deadline.to_be_bytes();
    let [c1, c0] = row.cost.to_be_bytes();
    [b'L', b'N', t1, t0, d1, d0, c1, c0]
}

// The bytes of the last record, behind so many others.
fn closing_bytes(before: u16) -> [u8; 4]
    ensures { result ≡ closing before }
{
    let [n1, n0] = before.to_be_bytes();
    [b'E', b'N', n1, n0]
}

// The sheet of some lines.
fn plain_sheet(lines: &Lines, fields: Fields) -> Draft
    ensures { drafted result ≡ plain_sheet fields (rows_of lines.now) }
{
    let mut draft = Draft::none();
    draft.push_all(&[&opening_bytes(fields)]);
    for line in lines.iter() {
        draft.push_all(&[&line_bytes(line.row())]);
    }
    draft.push_all(&[&closing_bytes(1 + lines.len() as u16)]);
    draft
}

// Writes lines as a sheet over the front of a list and answers its length in bytes. What stands behind stays.
pub fn write(lines: &Lines, fields: Fields, out: &mut [u8]) -> Result<usize, Refusal>
    ensures refused_by_checks { Answered result (write_checks fields (rows_of lines.now) (length out.old)) (λ n. n ≡ length (plain_sheet fields (rows_of lines.now))) }
    ensures list_holds_sheet { out.new ≡ left result (fronted (plain_sheet fields (rows_of lines.now)) out.old) out.old }
    ensures brings_back_lines { IfOk result (λ n. BringsBack (take n out.new) fields (rows_of lines.now)) }
{
    supply_of(fields)?;
    plain_sheet(lines, fields).hand_over(out)
}

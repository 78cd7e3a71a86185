ghost use Rattle.std.specs.Prelude.{◌≡◌, ◌+◌, ◌≤◌, [], ◌∷◌, ◌++◌, length};
ghost use Rattle.std.specs.List.{flat_map};
ghost use Rattle.refusal.specs.Answers.{Answered, left};
ghost use Rattle.roster.specs.Lent.{fronted};
ghost use Rattle.sheet.specs.Drafts.{drafted, room_check};

use crate::draft::Draft;
use crate::records::by_sheet;
use refusal::{Reason, Refusal};
use short_list::ShortList;

impl Draft {
    // The draft of no byte.
    pub(crate) fn none() -> Draft
        ensures { drafted result ≡ [] }
    {
        Draft {
            bytes: ShortList::none(0),
        }
    }

    // Some pieces more at the end, one behind the other.
    pub(crate) fn push_all(&mut self, pieces: &[&[u8]])
        requires { length (drafted self.old) + length (flat_map (λ piece. piece.now) pieces.now) ≤ 96 }
        ensures { drafted self.new ≡ drafted self.old ++ flat_map (λ piece. piece.now) pieces.now }
    {
        for piece in pieces {
            self.bytes.extend_from_slice(piece).unwrap();
        }
    }

    // Writes the bytes over the front of a list and answers their number, if it has room for them.
    pub(crate) fn hand_over(&self, list: &mut [u8]) -> Result<usize, Refusal>
        ensures answer { Answered result (room_check (length (drafted self.now)) (length list.old) ∷ []) (λ n. n ≡ length (drafted self.now)) }
        ensures room { length (drafted self.now) ≤ 96 }
        ensures list { list.new ≡ left result (fronted (drafted self.now) list.old) list.old }
    {
        let bytes = self.bytes.as_slice();
        if list.len() < bytes.len() {
            return Err(by_sheet(Reason::ListTooShort).at(bytes.len() as u32));
        }
        list[0..bytes.len()].copy_from_slice(bytes);
        Ok(bytes.len())
    }
}

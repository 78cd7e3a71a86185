// What a console needs whatever it holds: the loop over the lines of input, the words of a line, what is answered to bad ones, and
// the commands that ask a supply. A program adds what it holds between two lines, and its own commands.
#![tactic(auto)]

mod answering;
mod answers;
mod asking;
mod conversation;
mod opening;
mod shown;
mod surveying;
mod trouble;
mod usage;
mod words;

pub use answers::{figure, text};
pub use asking::{ask, opened};
pub use conversation::{Obey, converse};
pub use opening::named;
pub use trouble::Trouble;
pub use usage::Usage;
pub use words::{Typed, all, number, only};

// One conversation: a program answers the lines of its input.
use crate::answering::answer;
use crate::trouble::Trouble;
use std::io::{BufRead, BufReader};

// What a program holds between two lines, and how it obeys.
pub trait Obey {
    // What a command answers, by its name and the words behind it.
    fn obey(&mut self, name: &str, words: &[&str]) -> Result<String, Trouble>;
}

// Answers each line as it comes, to the end of the input; where there is no answer, nothing is printed. (No clause: it only hands
// lines on and prints, and the library promises nothing of what is read or let out.)
pub fn converse<R: Input + Print + AllocGlobal, S: Obey>(
    rt: &R,
    session: &mut S,
) -> anyhow::Result<()> {
    let heap = rt.alloc();
    let input = BufReader::new(heap, rt.reader())?;
    for line in input.split(heap, b'\n') {
        let answer = answer(session, heap, line?.as_slice())?;
        if !answer.is_empty() {
            rt.print(answer)?;
        }
    }
    Ok(())
}

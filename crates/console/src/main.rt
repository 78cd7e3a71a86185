// The roster console: commands on standard input, one to a line, and what was done on standard output.
#![tactic(auto)]

mod records;
mod session;

use commands::converse;
use session::Session;

fn main(rt: HostRuntime) -> anyhow::Result<()> {
    converse(&rt, &mut Session::new(rt.alloc()))
}

// The sheet program: a sheet on standard input, the report on it on standard output.
#![tactic(auto)]

mod printing;

use printing::print_report;

fn main(rt: HostRuntime) -> anyhow::Result<()> {
    print_report(rt.alloc(), rt.stdin(), &mut rt.stdout())
}

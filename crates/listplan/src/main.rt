// Reads a sheet text from standard input and prints the page of each line.
#![tactic(auto)]

use printing::run;
use session::Reading;

fn main(rt: HostRuntime) -> anyhow::Result<()> {
    run(rt.alloc(), rt.stdin(), rt.stdout(), &mut Reading)
}

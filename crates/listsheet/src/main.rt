// Reads a sheet text from standard input, carries it out and prints the page of each line.
#![tactic(auto)]

use pair_table::PairTable;
use printing::run;
use sheet::Sheet;

fn main(rt: HostRuntime) -> anyhow::Result<()> {
    let mut sheet = Sheet::open(PairTable::new());
    run(rt.alloc(), rt.stdin(), rt.stdout(), &mut sheet)
}

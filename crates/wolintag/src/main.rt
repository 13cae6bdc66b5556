// Runs the script of standard input on the model of model.bin.
#![tactic(auto)]

use std::io;

fn main(rt: HostRuntime) -> io::Result<()> {
    script::program::start(&rt)
}

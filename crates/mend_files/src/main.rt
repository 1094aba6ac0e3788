// Mends an SDfile: the path to it, then the name by which it is told. A program of its own, so that in `records` the reader's step has one caller.
#![tactic(auto)]

use program_io::System;
use std::process::ExitCode;

fn main(rt: HostRuntime) -> ExitCode {
    let system = System::new(rt);
    program_mend::run(&system);
    system.ending()
}

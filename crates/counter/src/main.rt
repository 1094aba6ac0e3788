// Counts the records of the SDfile on standard input, with a buffer of 65,536 bytes, and writes one line.
#![tactic(auto)]

use program_io::System;
use std::process::ExitCode;

// The last byte stands beside the buffer: it tells whether input follows a full one.
fn count(system: &System, buf: &mut [u8; 65537], progress: bool) {
    let verdict = program_verdict::judge(system, system.stdin(), true, buf, progress);
    program_verdict::report(system, b"standard input", false, verdict);
}

fn main(rt: HostRuntime) -> ExitCode {
    let system = System::new(rt);
    let mut buf = [0u8; 65537];
    count(
        &system,
        &mut buf,
        program_io::is_argument(&system, 1, b"--progress"),
    );
    system.ending()
}

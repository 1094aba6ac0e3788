// Judges files: `molfile` or `sdfile`, perhaps `--progress`, perhaps `--all`, then the names, `-` for standard input. Facts go to standard output.
#![tactic(auto)]

use program_delivery::{BUFFER, Way};
use program_io::{Input, System};
use std::process::ExitCode;

fn judge_file(system: &System, name: &[u8], way: Way, buf: &mut [u8; BUFFER]) {
    if name == b"-".as_slice() {
        program_delivery::judge(system, name, system.stdin(), way, buf);
        return;
    }
    match system.open_read(name) {
        Ok(file) => program_delivery::judge(system, name, Input::Opened(&file), way, buf),
        Err(why) => program_delivery::cannot_open(system, name, why),
    }
}

fn judge_argument(system: &System, i: usize, way: Way, buf: &mut [u8; BUFFER]) {
    let mut name = io::buffer();
    match system.argument(i, &mut name) {
        Ok(n) => judge_file(system, &name[..n], way, buf),
        Err(why) => program_delivery::cannot_open(system, b"file name", why),
    }
}

fn judge_arguments(system: &System, from: usize, way: Way, buf: &mut [u8; BUFFER]) {
    let count = system.argument_count();
    for i in from..count {
        judge_argument(system, i, way, buf);
    }
}

fn main(rt: HostRuntime) -> ExitCode {
    let system = System::new(rt);
    let mut buf = [0u8; BUFFER];
    let sd = program_io::is_argument(&system, 1, b"sdfile");
    let progress = program_io::is_argument(&system, 2, b"--progress");
    let next = if progress { 3 } else { 2 };
    let all = program_io::is_argument(&system, next, b"--all");
    let way = Way { sd, progress, all };
    judge_arguments(&system, if all { next + 1 } else { next }, way, &mut buf);
    system.ending()
}

// Reads the records of files, or a scanner log. The first argument says what is written of them; what stands behind it is that sub-command's own.
#![tactic(auto)]

use program_io::{System, Target};
use program_printer::Task;
use std::process::ExitCode;

// Every record as JSON, or its pieces, one object a line: `molfile` or `sdfile`, perhaps `--progress`, then the names.
fn of_records(system: &System, task: Task) {
    let sd = program_io::is_argument(system, 2, b"sdfile");
    program_printer::run(system, task, sd, b"", 3);
}

// The item of a name in every record of SDfiles as JSON: the name, perhaps `--progress`, then the names of the files.
fn fetch(system: &System) {
    let mut item = io::buffer();
    match system.argument(2, &mut item) {
        Ok(n) => program_printer::run(system, Task::Item, true, &item[..n], 3),
        Err(why) => system.fail(b"name of the item", why),
    }
}

// The canonical text of SDfiles: perhaps `--progress`, then the names.
fn canon(system: &System) {
    program_printer::run(system, Task::Canon, true, b"", 2);
}

// The formula of every record of SDfiles against its atoms, as JSON: perhaps `--progress`, then the names.
fn formula(system: &System) {
    program_printer::run(system, Task::Formula, true, b"", 2);
}

fn run(system: &System, verb: &[u8]) {
    match verb {
        b"read" => of_records(system, Task::Readings),
        b"fetch" => fetch(system),
        b"canon" => canon(system),
        b"pieces" => of_records(system, Task::Pieces),
        b"formula" => formula(system),
        b"replay" => program_replay::run(system, 2),
        b"same" => program_compare::same(system),
        b"stock" => program_stock::run(system),
        b"compare" => program_compare::compare(system),
        b"tally" => program_tally::run(system, 2),
        _ => {
            let _ = system.write(Target::Errors, b"records: no sub-command of this name\n");
        }
    }
}

fn main(rt: HostRuntime) -> ExitCode {
    let system = System::new(rt);
    let mut verb = [0u8; 64];
    match system.argument(1, &mut verb) {
        Ok(n) => run(&system, &verb[..n]),
        Err(_) => run(&system, b""),
    }
    system.ending()
}

//! The program `shelfoffice`: runs the command over the process's arguments and standard streams, and exits with its
//! status.
#![tactic(auto)]

use plant_server::ExitStatus;
use plant_wire::{FromRead, ToWrite};
use std::env;
use std::process::ExitCode;

fn words(rt: &HostRuntime) -> Option<Vec<String>> {
    match env::args(rt) {
        Ok(words) => words.collect(rt.alloc()).ok(),
        Err(_) => None,
    }
}

fn main(rt: HostRuntime) -> ExitCode {
    let Some(words) = words(&rt) else {
        return ExitCode::from(ExitStatus::NoMemory.code());
    };
    let mut input = FromRead::new(rt.stdin());
    let mut output = ToWrite::new(rt.stdout());
    let mut errors = rt.stderr();
    let status = plant_server::command(&rt, words.as_slice(), &mut input, &mut output, &mut errors);
    ExitCode::from(status)
}

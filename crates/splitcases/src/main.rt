// Replays mesh files with stored outputs: for each file that an argument names, its name and what the report program prints. A file that
// cannot be opened is named on standard error, and the next one follows.
#![tactic(auto)]

use std::rt::Files;
use std::{env, fs, io};

fn replay(rt: &(impl Files + Print + Eprint), name: &str) -> io::Result<()> {
    match fs::open(rt, name) {
        Ok(mut file) => {
            println!(rt; "-- {name}")?;
            filereport::print_report(rt, &mut file)
        }
        Err(error) => eprintln!(rt; "{name}: {error}"),
    }
}

fn main(rt: HostRuntime) -> io::Result<()> {
    for name in env::args(&rt)?.skip(1) {
        replay(&rt, name.as_str())?;
    }
    Ok(())
}

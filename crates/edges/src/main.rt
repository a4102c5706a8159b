// Runs the vectors: checks each file that the arguments name, a line each.
#![tactic(auto)]

use std::rt::Files;
use std::{env, fs, io};

fn check_file(rt: &(impl Files + Print), path: &str) -> io::Result<()> {
    let mut file = fs::open(rt, path)?;
    let mut buffer = [0u8; 65536];
    let n = print_line::read_full(&mut file, &mut buffer)?;
    let mut rows = [0u64; 458];
    print_line::print_checked(rt, ach::check(layout::Way::Plain, &buffer[..n], &mut rows))
}

fn main(rt: HostRuntime) -> io::Result<()> {
    for path in env::args(&rt)?.skip(1) {
        if let Err(error) = check_file(&rt, path.as_str()) {
            eprintln!(rt; "{path}: {error}")?;
        }
    }
    Ok(())
}

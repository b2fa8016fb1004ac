// An example of a host: runs plug-ins within bounds, and tells what is found of each.
//
// Each word names the file of a plug-in, a script that leaves its result in the global `result`. The host gives it turns until
// nothing of it can move, and then asks for that global. A plug-in has a world of its own: it can neither see another
// nor keep the host waiting, since each of its interpreters, four at most, has so many turns and no more.
#![tactic(auto)]

mod finding;

use finding::find;
use si_plain::Limits;
use std::{env, fs, io};

/// The global in which a plug-in leaves its result.
const RESULT: &str = "result";

/// How many interpreters a plug-in may have.
const INTERPRETERS: u32 = 4;

/// How many turns each of them has.
const TURNS: u64 = 100_000;

/// Runs the plug-in of a file, and prints what is found of it.
fn run_plug_in(rt: &HostRuntime, limits: Limits, path: &str) -> io::Result<()> {
    let plug_in = fs::read_to_string(rt, path)?;
    let finding = find(rt.alloc(), plug_in.as_str(), limits, RESULT)?;
    println!(rt; "{path}: {finding}")
}

fn main(rt: HostRuntime) -> io::Result<()> {
    let Ok(limits) = Limits::new(INTERPRETERS, TURNS) else {
        unreachable!();
    };
    for path in env::args(&rt)?.skip(1) {
        run_plug_in(&rt, limits, path.as_str())?;
    }
    Ok(())
}

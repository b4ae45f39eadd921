// Runs a script over a table and prints a line for each call: `drive TABLE SCRIPT`. docs/SCRIPT.md has the language.
#![tactic(auto)]

mod running;

use std::env::{Env, FillError};

// The size of the buffer for an argument: it holds any path. A longer argument counts as an empty one.
const ARGUMENT_SIZE: usize = 4096;

const USAGE: &str = "usage: drive TABLE SCRIPT
Runs the calls of the file SCRIPT, one a line, over the table in the file TABLE,
and prints a line for each. docs/SCRIPT.md has the language.
";

// A line that can't be written is lost.
fn main(rt: HostRuntime) {
    let count = argument_count(&rt);
    if count == 1 {
        let _ = rt.eprint(USAGE);
        return;
    }
    let mut first = [0u8; ARGUMENT_SIZE];
    let n = rt.arg(1, &mut first).unwrap_or(0);
    let table = &first[..n];
    if table == b"--help".as_slice() {
        let _ = rt.print(USAGE);
        return;
    }
    if count != 3 {
        let _ = rt.eprintln("drive: a table and a script are needed: drive TABLE SCRIPT");
        return;
    }
    let mut second = [0u8; ARGUMENT_SIZE];
    let k = rt.arg(2, &mut second).unwrap_or(0);
    running::run(&rt, &rt.stderr(), table, &second[..k]);
}

// How many arguments there are, the program's name among them. Four stands for any more.
fn argument_count(env: &impl Env) -> usize {
    (0..4).take_while(|i| has_argument(env, *i)).count()
}

fn has_argument(env: &impl Env, i: usize) -> bool {
    !matches!(env.arg(i, &mut []), Err(FillError::NotPresent))
}

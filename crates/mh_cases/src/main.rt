//! Runs the cases of the files that its words name, and prints each outcome that isn't what the case says: where all
//! is as written, nothing. `docs/cases.md` says how a case is written.
#![tactic(auto)]

mod block;
mod case;
mod outcome;

use crate::case::run_cases;
use std::io::Write;
use std::{env, fs};

fn main(rt: HostRuntime) -> anyhow::Result<()> {
    for name in env::args(&rt)?.skip(1) {
        let text = fs::read_to_string(&rt, name.as_str())?;
        let report = run_cases(rt.alloc(), name.as_str(), text.as_str())?;
        rt.stdout().write_all(report.as_slice())?;
    }
    Ok(())
}

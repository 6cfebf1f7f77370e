//! Runs cases: what files and words spell, what bytes ask over HTTP, a desk over its tables, and
//! commands that are stopped. The steps stand in `case_steps` and `case_desks`; here stand the desks
//! that they are asked of.
//!
//! The words of the program are the names of the case files. It prints what was not as expected,
//! and a line for each file. It ends with status 0 only where there is an answer in each file and
//! all is as expected.
#![tactic(auto)]

mod asking;
mod calls;
mod disks;
mod faults;
mod looking;
mod plain;
mod tables;
mod two_files;

use crate::disks::Disks;
use crate::tables::Tables;
use anyhow::{Context, Result};
use case_desks::run_case;
use case_steps::Findings;
use std::process::ExitCode;
use std::{env, fs};

fn main(rt: HostRuntime) -> Result<ExitCode> {
    let mut is_all_expected = true;
    for name in env::args(&rt)?.skip(1) {
        let text = fs::read_to_string(&rt, &name).context(format_args!("reading {name}"))?;
        let mut findings = Findings::new(rt.alloc(), &name);
        run_case::<Tables, Disks>(rt.alloc(), &mut findings, &text).context(format_args!(
            "running {name}"
        ))?;
        is_all_expected = is_all_expected && findings.is_all_expected();
        println!(rt; "{findings}")?;
    }
    Ok(if is_all_expected {
        ExitCode::SUCCESS
    } else {
        ExitCode::FAILURE
    })
}

//! Runs case files through the top call, with sources and sinks in memory, and prints what differs and the totals.
//!
//! Its words are the names of the case files, which lie where it runs; `case.rt` has their format.
#![tactic(auto)]

mod case;
mod run;

use case::next_case;
use run::{Totals, run_case};
use std::process::ExitCode;
use std::rt::Files;
use std::sync::Wait;
use std::thread::Threads;
use std::{env, fs, io};

/// Runs all cases of one file.
fn run_file<R: Files + Print + AllocGlobal + Threads + Wait + Sync>(
    rt: &R,
    name: &str,
    totals: &mut Totals,
) -> io::Result<()> {
    let bytes = fs::read(rt, name)?;
    let mut rest = bytes.as_slice();
    let count = rest.len();
    let mut number = 0u64;
    for _turn in 0..count {
        if rest.is_empty() {
            break;
        }
        match next_case(rt.alloc(), rest)? {
            Some((case, left)) => {
                run_case(rt, name, number, &case, totals)?;
                rest = left;
            }
            None => {
                println!(rt; "{name} case {number}: malformed")?;
                totals.differ = totals.differ.saturating_add(1);
                break;
            }
        }
        number = number.saturating_add(1);
    }
    Ok(())
}

fn main(rt: HostRuntime) -> io::Result<ExitCode> {
    let words: Vec<String> = env::args(&rt)?.collect(rt.alloc())?;
    let mut totals = Totals { runs: 0, differ: 0 };
    for name in words.iter().skip(1) {
        run_file(&rt, name.as_str(), &mut totals)?;
    }
    let runs = totals.runs;
    let differ = totals.differ;
    println!(rt; "{runs} cases, {differ} differ")?;
    Ok(if differ == 0 {
        ExitCode::SUCCESS
    } else {
        ExitCode::FAILURE
    })
}

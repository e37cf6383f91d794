//! Plays cases: POP3 sessions and scripts as text, with what they are to get and to write. Its arguments name the files of
//! cases.
#![tactic(auto)]

mod case;
mod client;
mod console;
mod desk;
mod escapes;
mod meanwhile;
mod output;
mod playing;
mod reading;
mod run;
mod served;

use crate::case::Case;
use crate::reading::cases_of;
use std::fs;
use std::process::ExitCode;
use std::rt::Files;
use std::test::Fail;

/// The first thing that is not as a case wants it, if there is one.
fn difference_of(rt: &impl AllocGlobal, case: &Case) -> Result<Option<String>, Fail> {
    if case.is_shared() {
        served::difference(rt.alloc(), case)
    } else {
        Ok(playing::difference(rt.alloc(), case)?)
    }
}

/// Plays the cases of a file. Tells each with `ok` or its first difference, and then the count. Gives how many failed.
fn play_file<R: AllocGlobal + Files + Print>(rt: &R, path: &str) -> Result<u64, Fail> {
    let text = fs::read_to_string(rt, path)?;
    let cases = cases_of(rt.alloc(), text.as_str())?;
    let mut failed = 0u64;
    for case in &cases {
        let name = case.name.as_str();
        match difference_of(rt, case)? {
            None => println!(rt; "ok {name}")?,
            Some(difference) => {
                failed = failed.saturating_add(1);
                println!(rt; "FAILED {name}: {difference}")?;
            }
        }
    }
    let count = cases.len();
    println!(rt; "{path}: {count} cases, {failed} failed")?;
    Ok(failed)
}

fn main(rt: HostRuntime) -> Result<ExitCode, Fail> {
    let words = std::env::args(&rt)?.collect::<Vec<String>>(rt.alloc())?;
    let mut failed = 0u64;
    for path in words.iter().skip(1) {
        failed = failed.saturating_add(play_file(&rt, path.as_str())?);
    }
    Ok(if failed == 0 {
        ExitCode::SUCCESS
    } else {
        ExitCode::FAILURE
    })
}

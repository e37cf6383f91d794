//! One run of a session or a script, and how it differs from what is wanted.

use crate::case::Case;
use crate::console::Console;
use crate::output::Output;
use server::{Fault, lone_run};
use simulator::sim_run;
use std::alloc::{AllocError, Global};
use std::cell::RefCell;
use std::io::{BufWriter, Read};

/// How many bytes of replies are gathered at most, as by the program.
const GATHERED: usize = 65_536;

/// How a writer takes bytes.
#[derive(Clone, Copy)]
pub struct Taking {
    /// How many it takes in a call.
    pub most: usize,
    /// How many it takes in all.
    pub room: usize,
    /// Whether it fails after them, or takes nothing.
    pub fails: bool,
    /// Whether a session's replies are gathered before they come to it.
    pub gathers: bool,
}

pub const AT_ONCE: Taking = Taking {
    most: usize::MAX,
    room: usize::MAX,
    fails: false,
    gathers: false,
};

pub const BYTE_BY_BYTE: Taking = Taking { most: 1, ..AT_ONCE };

/// What a run ended with.
#[derive(Drop)]
pub struct Run<'a> {
    pub status: u8,
    pub told: String,
    pub taken: &'a RefCell<Vec<u8>>,
}

/// What is wanted of a run.
#[derive(Clone, Copy)]
pub struct Wanted<'a> {
    pub status: u8,
    /// What is told on standard error.
    pub told: &'a [u8],
    pub replies: &'a [u8],
    /// Whether a front of the replies is as good as all of them.
    pub is_front: bool,
    /// With what the lines begin that count, if not all do.
    pub only: Option<&'a [u8]>,
}

/// Serves the lone session of a case to this reader, or plays the script that it gives.
pub fn run_case<'a, R: Read>(
    alloc: Global,
    case: &Case,
    reader: &mut R,
    taken: &'a RefCell<Vec<u8>>,
    taking: Taking,
) -> Run<'a> {
    let told = RefCell::new(String::new(alloc));
    let console = Console { told: &told };
    let mut output = Output {
        taken,
        most: taking.most,
        room: taking.room,
        fails: taking.fails,
    };
    let rt = (console, alloc);
    let status = if case.is_script {
        sim_run(&rt, reader, &mut output).status
    } else if taking.gathers {
        match BufWriter::with_capacity(alloc, GATHERED, &mut output) {
            Ok(mut writer) => lone_run(&rt, reader, &mut writer, &case.settings.options()),
            Err(_) => Fault::Memory.status(),
        }
    } else {
        lone_run(&rt, reader, &mut output, &case.settings.options())
    };
    drop(rt);
    Run {
        status,
        told: told.into_inner(),
        taken,
    }
}

/// How what was written differs from what is wanted.
pub fn difference_of_bytes(
    alloc: Global,
    what: &str,
    written: &[u8],
    wanted: &[u8],
) -> Result<Option<String>, AllocError> {
    if written == wanted {
        return Ok(None);
    }
    let at = written
        .iter()
        .zip(wanted)
        .take_while(|(one, other)| one == other)
        .count();
    let text = String::from_utf8_lossy(alloc, written)?;
    Ok(Some(format!(in alloc; "{what} differs at byte {at}: {text:?}")?))
}

/// The lines that begin so, or all.
fn counting_lines(
    alloc: Global,
    only: Option<&[u8]>,
    written: &[u8],
) -> Result<Vec<u8>, AllocError> {
    let Some(front) = only else {
        return written.to_vec(alloc);
    };
    let mut counting = Vec::new(alloc);
    for line in written.split_inclusive(|byte| *byte == b'\n') {
        if line.starts_with(front) {
            counting.extend_from_slice(line)?;
        }
    }
    Ok(counting)
}

impl Run<'_> {
    fn difference_of_replies(
        &self,
        alloc: Global,
        wanted: &Wanted<'_>,
    ) -> Result<Option<String>, AllocError> {
        let Ok(taken) = self.taken.try_borrow() else {
            return Ok(Some("the writer is still held".to_string(alloc)?));
        };
        let counting = counting_lines(alloc, wanted.only, taken.as_slice())?;
        let written = counting.as_slice();
        if wanted.is_front && wanted.replies.starts_with(written) {
            return Ok(None);
        }
        difference_of_bytes(alloc, "the output", written, wanted.replies)
    }

    /// What of the run is first not as wanted.
    pub fn difference(
        &self,
        alloc: Global,
        wanted: &Wanted<'_>,
    ) -> Result<Option<String>, AllocError> {
        let (status, other) = (self.status, wanted.status);
        if status != other {
            return Ok(Some(format!(in alloc; "the status is {status}, not {other}")?));
        }
        let told = self.told.as_str().as_bytes();
        if told != wanted.told {
            return difference_of_bytes(alloc, "standard error", told, wanted.told);
        }
        self.difference_of_replies(alloc, wanted)
    }
}

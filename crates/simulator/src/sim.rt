//! Plays a script, from a reader to a writer.
ghost use Rattle.std.specs.Prelude.{◌≡◌, ◌≤◌, ◌++◌, ℕ, List, [], None, Some, OnOk, IfErr, IfSome, is_some, true};
ghost use Rattle.std.specs.declared.alloc.Global.{Global};
ghost use Rattle.std.specs.Io.Buffered.{reader_remaining};
ghost use Rattle.std.specs.Io.KnownBytes.{Appends};
ghost use Rattle.std.specs.Str.Lines.{lines};
ghost use Rattle.simulator.specs.Reading.{IsFlushed, IsPlayedLine, IsStopAt, left_of};
ghost use Rattle.simulator.specs.Runs.{output, run_of};
ghost use Rattle.simulator.specs.Statuses as spec;

use crate::fault::Fault;
use crate::reading::{MOST_READS, read_line};
use crate::report::Report;
use crate::run::Run;
use maildrop::next_line;
use script::ScriptFault;
use std::alloc::Global;
use std::io::{BufReader, Read, Write};

/// How a script has ended.
#[derive(Clone, Copy, Debug, PartialEq, Eq)]
pub struct SimEnd {
    /// The exit status, 0 to 2.
    pub status: u8,
    /// The number of the line at fault, counted from 1, if the status is 2.
    pub line: Option<u64>,
}

/// From so many bytes on output is written, even if the next line is there already.
const GATHERED: usize = 65_536;

/// Writes what is still to be written. It is let go even if that fails, so that no byte of it is written twice.
fn write_out<W: Write>(writer: &mut W, report: &mut Report) -> Result<(), Fault>
    ensures written { OnOk result (Appends (W.contents writer.old) (W.contents writer.new) report.old) }
    ensures cleared { report.new ≡ [] }
    ensures fault { IfErr result (λ fault. fault ≡ Fault.Write) }
{
    if report.get().is_empty() {
        return Ok(());
    }
    let written = writer.write_all(report.get());
    report.clear();
    match written {
        Ok(()) => Ok(()),
        Err(_) => Err(Fault::Write),
    }
}

/// Writes what is still to be written, before more input is awaited or if it is much.
fn write_due<W: Write>(writer: &mut W, report: &mut Report, is_awaited: bool) -> Result<(), Fault>
    ensures flushed { OnOk result (IsFlushed (W.contents writer.old) (W.contents writer.new) report.old report.new) }
    ensures fault { IfErr result (λ fault. fault ≡ Fault.Write) }
{
    if is_awaited || report.get().len() >= GATHERED {
        write_out(writer, report)
    } else {
        Ok(())
    }
}

fn fault_at(number: u64, fault: ScriptFault) -> Fault
    ensures { result ≡ spec.fault_at number fault }
{
    match fault {
        ScriptFault::Memory => Fault::Memory,
        _ => Fault::Line(number),
    }
}

/// Plays a line of this number, which has its line feed unless it is the last.
fn play_line(alloc: Global, run: &mut Run, number: u64, line: &[u8]) -> Result<(), Fault>
    ensures goes_on { OnOk result (IsPlayedLine line.now number (run_of run.old) run.old.report (run_of run.new) run.new.report) }
    ensures stops { IfErr result (λ fault. IsStopAt line.now number (run_of run.old) run.old.report run.new.report fault) }
{
    let Some((content, _)) = next_line(line) else {
        return Ok(());
    };
    match run.take_line(alloc, content) {
        Ok(()) => Ok(()),
        Err(fault) => Err(fault_at(number, fault)),
    }
}

/// Plays the lines of a script, in at most 4,294,967,295 reads. What came of them is written before more input is awaited.
fn play_lines<R: Read, W: Write>(
    alloc: Global,
    run: &mut Run,
    reader: &mut BufReader<R>,
    writer: &mut W,
) -> Result<(), Fault>
    ensures sound { OnOk result ((bytes : List ℕ) → reader_remaining R.remaining reader.old ≡ Some bytes → spec.fault_from (lines bytes) 1 run.old.script ≡ None) }
    ensures line { IfErr result (λ fault. (bytes : List ℕ) (number : ℕ) → reader_remaining R.remaining reader.old ≡ Some bytes → fault ≡ Fault.Line number → spec.fault_from (lines bytes) 1 run.old.script ≡ Some number) }
    ensures told { OnOk result ((bytes : List ℕ) → reader_remaining R.remaining reader.old ≡ Some bytes
        → IsFlushed (W.contents writer.old) (W.contents writer.new) (run.old.report ++ left_of bytes (run_of run.old)) run.new.report) }
    ensures told_before { IfErr result (λ fault. (bytes : List ℕ) (number : ℕ) → reader_remaining R.remaining reader.old ≡ Some bytes → fault ≡ Fault.Line number
        → IsFlushed (W.contents writer.old) (W.contents writer.new) (run.old.report ++ left_of bytes (run_of run.old)) run.new.report) }
{
    let mut line = Vec::new(alloc);
    let mut reads_left = MOST_READS;
    for number in 1..u64::MAX {
        write_due(writer, &mut run.report, !reader.buffer().contains(&b'\n'))?;
        if !read_line(reader, &mut reads_left, number, &mut line)? {
            return Ok(());
        }
        if let Err(fault) = play_line(alloc, run, number, line.as_slice()) {
            return Err(fault);
        }
    }
    Err(Fault::Read)
}

/// Plays the lines of a script, and writes also what came of them before a fault. Has one way out: who owns the run ends
/// with this call, since each way out of that function costs a proof of all that is dropped there.
fn play_and_write<R: Read, W: Write>(
    alloc: Global,
    run: &mut Run,
    reader: &mut BufReader<R>,
    writer: &mut W,
) -> Result<(), Fault>
    ensures sound { OnOk result ((bytes : List ℕ) → reader_remaining R.remaining reader.old ≡ Some bytes → spec.fault_from (lines bytes) 1 run.old.script ≡ None) }
    ensures line { IfErr result (λ fault. (bytes : List ℕ) (number : ℕ) → reader_remaining R.remaining reader.old ≡ Some bytes → fault ≡ Fault.Line number → spec.fault_from (lines bytes) 1 run.old.script ≡ Some number) }
    ensures written { OnOk result ((bytes : List ℕ) → reader_remaining R.remaining reader.old ≡ Some bytes
        → Appends (W.contents writer.old) (W.contents writer.new) (run.old.report ++ left_of bytes (run_of run.old))) }
    ensures written_before { IfErr result (λ fault. (bytes : List ℕ) (number : ℕ) → reader_remaining R.remaining reader.old ≡ Some bytes → fault ≡ Fault.Line number
        → Appends (W.contents writer.old) (W.contents writer.new) (run.old.report ++ left_of bytes (run_of run.old))) }
{
    let played = play_lines(alloc, run, reader, writer);
    write_out(writer, &mut run.report)?;
    played
}

/// Plays a script.
fn run<R: Read, W: Write>(alloc: Global, reader: &mut R, writer: &mut W) -> Result<(), Fault>
    ensures sound { OnOk result (IfSome (R.remaining reader.old) (λ input. spec.first_fault input ≡ None)) }
    ensures line { IfErr result (λ fault. (number : ℕ) → fault ≡ Fault.Line number → IfSome (R.remaining reader.old) (λ input. spec.first_fault input ≡ Some number)) }
    ensures written { OnOk result (IfSome (R.remaining reader.old) (λ input. Appends (W.contents writer.old) (W.contents writer.new) (output Global input))) }
    ensures written_before { IfErr result (λ fault. (number : ℕ) → fault ≡ Fault.Line number
        → IfSome (R.remaining reader.old) (λ input. Appends (W.contents writer.old) (W.contents writer.new) (output Global input))) }
{
    let Ok(mut lines) = BufReader::new(alloc, reader) else {
        return Err(Fault::Memory);
    };
    let mut run = Run::new(alloc);
    play_and_write(alloc, &mut run, &mut lines, writer)
}

/// Plays a script of events, from a reader, against a whole service of one to nine nodes, and writes what its sessions
/// are told, what its Mails and Breaks are answered, which commands are refused, and what nodes have performed, to a
/// writer. What comes of a line is written before more input is awaited. Returns the exit status: 0 at the end of the
/// input, 1 after a fault of memory, reading or writing, 2 at a line that is none of the language or may not come at its
/// place, with its number. At 0 and 2 it has written what all lines say that come before a fault, one after another. A fault is
/// reported on standard error, after the output of what ran before.
pub fn sim_run<H: AllocGlobal + Eprint, R: Read, W: Write>(
    rt: &H,
    reader: &mut R,
    writer: &mut W,
) -> SimEnd
    ensures played { result.status ≡ 0 → IfSome (R.remaining reader.old) (λ input. spec.first_fault input ≡ None) }
    ensures refused { result.status ≡ 2 → IfSome (R.remaining reader.old) (λ input. is_some (spec.first_fault input) ≡ true) }
    ensures line { IfSome result.line (λ number. IfSome (R.remaining reader.old) (λ input. spec.first_fault input ≡ Some number)) }
    ensures statuses { result.status ≤ 2 }
    ensures written { (result.status ≡ 1 → ⊥) → IfSome (R.remaining reader.old) (λ input. Appends (W.contents writer.old) (W.contents writer.new) (output Global input)) }
{
    match run(rt.alloc(), reader, writer) {
        Ok(()) => SimEnd {
            status: 0,
            line: None,
        },
        Err(fault) => {
            let _ = eprintln!(rt; "maildropd: {fault}");
            SimEnd {
                status: fault.status(),
                line: fault.line(),
            }
        }
    }
}

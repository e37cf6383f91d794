//! Lines that are written to an operator.
ghost use Rattle.std.specs.Prelude.{OnOk};
ghost use Rattle.std.specs.Io.KnownBytes.{Appends};

use crate::fault::Fault;
use std::io::Write;

/// Writes a line.
pub fn say<W: Write>(writer: &mut W, line: &[u8]) -> Result<(), Fault>
    ensures { OnOk result (Appends (W.contents writer.old) (W.contents writer.new) line.now) }
{
    match writer.write_all(line) {
        Ok(()) => Ok(()),
        Err(_) => Err(Fault::Write),
    }
}

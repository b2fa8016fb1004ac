// Reading a script to its end.

ghost use Rattle.std.specs.Prelude.{◌≤◌, length, IfErr, IfOk};
ghost use Rattle.std.specs.Io.KnownBytes.{Consumes, IsAtEnd};
ghost use Rattle.si_cli.specs.Service.{IsOfInput};

use crate::fault::CliFault;
use std::alloc::Global;
use std::io::Read;

/// The most bytes of a schedule's text that the program reads.
pub const MAX_SCHEDULE_BYTES: u64 = 1_073_741_824;

/// How many bytes one read asks for.
const CHUNK: usize = 16_384;

/// How many reads are made before a reader counts as one without an end.
const MOST_READS: u32 = 16_777_216;

/// All bytes that the reader has left, at most `limit`.
///
/// `CliFault::TooLong` where more than `limit` bytes came, `CliFault::Input` where a read failed or so many reads as `MOST_READS`
/// met no end, `CliFault::NoMemory` where memory was refused. What was read is then lost.
pub fn read_input<R: Read>(alloc: Global, from: &mut R, limit: u64) -> Result<Vec<u8>, CliFault>
    // The answer is what the reader had left, and the reader is at its end.
    ensures all { IfOk result (λ v. Consumes (R.remaining from.old) (R.remaining from.new) v.items
        × IsAtEnd (R.remaining from.new)) }
    ensures short { IfOk result (λ v. length v.items ≤ limit) }
    ensures fault { IfErr result (IsOfInput limit (R.remaining from.old)) }
{
    let mut all = Vec::new(alloc);
    let mut buffer = [0u8; CHUNK];
    for _turn in 0..MOST_READS {
        let Ok(count) = from.read(&mut buffer) else {
            return Err(CliFault::Input);
        };
        if count == 0 {
            return Ok(all);
        }
        if count as u64 > limit - all.len() as u64 {
            return Err(CliFault::TooLong);
        }
        all.extend_from_slice(&buffer[..count])?;
    }
    Err(CliFault::Input)
}

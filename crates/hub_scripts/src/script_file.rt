//! The file of a script, read whole.
ghost use Rattle.std.specs.Prelude.{◌<◌, ◌^◌};
ghost use Rattle.hub_scripts.specs.ScriptFile.{IsScriptRead};

use exit_statuses::MAX_READS;
use odata_http::{RunFault, Source};
use std::alloc::Global;

/// The room for one read.
const PIECE: usize = 8192;

/// Returns all bytes that a source has left, in at most [`MAX_READS`] reads.
pub fn read_script<R: Source>(alloc: Global, input: &mut R) -> Result<Vec<u8>, RunFault>
    requires { (R.source input.old).reads < 2 ^ 63 }
    ensures { IsScriptRead (R.source input.old) (R.source input.new) result }
{
    let mut script = Vec::new(alloc);
    let mut piece = [0u8; PIECE];
    for _read in 0..MAX_READS {
        let count = match input.read(&mut piece) {
            Ok(0) => return Ok(script),
            Ok(count) => count,
            Err(_) => return Err(RunFault::Read),
        };
        if script.extend_from_slice(&piece[..count]).is_err() {
            return Err(RunFault::NoMemory);
        }
    }
    Err(RunFault::TooManyReads)
}

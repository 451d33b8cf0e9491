//! What is said of a fault, and its exit status.
ghost use Rattle.std.specs.Prelude.{◌≡◌, ◌≢◌, [], IfErr, IfOk, string_bytes};
ghost use Rattle.exit_statuses.specs.Text.{exit_status, fault_text, refusal_status, refusal_text};

use crate::fault::ProgramFault;
use odata_http::RunFault;
use served_folders::FolderFault;
use std::alloc::{AllocError, Global};
use table_store::LoadFault;

/// The exit status of a refused folder.
pub const REFUSED: u8 = 1;

/// The exit status of words, or of a line of a script, that are no command of the program.
pub const USAGE: u8 = 2;

/// The exit status of a device's fault, or of too many reads.
pub const DEVICE: u8 = 3;

/// The exit status if memory ran out.
pub const MEMORY: u8 = 4;

/// Returns the text for a refused folder, and the exit status.
fn refusal(alloc: Global, fault: &LoadFault) -> Result<(String, u8), AllocError>
    ensures line { IfOk result (λ line. string_bytes line.0 ≡ refusal_text fault.now) }
    ensures status { IfOk result (λ line. line.1 ≡ refusal_status fault.now) }
    ensures said { IfErr result (λ _. refusal_text fault.now ≢ []) }
{
    if fault.is_memory() {
        return Ok((String::new(alloc), MEMORY));
    }
    let cause = fault.text(alloc)?;
    let line = format!(in alloc; "refused: {cause}")?;
    Ok((line, REFUSED))
}

/// Returns the text for standard error, which is empty for a device and if memory ran out, and the exit status.
pub fn fault_line(alloc: Global, fault: &ProgramFault) -> Result<(String, u8), AllocError>
    ensures line { IfOk result (λ line. string_bytes line.0 ≡ fault_text fault.now) }
    ensures status { IfOk result (λ line. line.1 ≡ exit_status fault.now) }
    ensures said { IfErr result (λ _. fault_text fault.now ≢ []) }
{
    match fault {
        ProgramFault::Folder(FolderFault::NoMetadata) => {
            let line = format!(in alloc; "refused: csv-metadata.json: NoMetadata")?;
            Ok((line, REFUSED))
        }
        ProgramFault::Folder(FolderFault::Load(fault)) => refusal(alloc, fault),
        ProgramFault::Folder(FolderFault::Device) => Ok((String::new(alloc), DEVICE)),
        ProgramFault::Folder(FolderFault::NoMemory) => Ok((String::new(alloc), MEMORY)),
        ProgramFault::Run(RunFault::NoMemory) => Ok((String::new(alloc), MEMORY)),
        ProgramFault::Run(_) => Ok((String::new(alloc), DEVICE)),
        ProgramFault::Script { line } => {
            let text = format!(in alloc; "line {line}: bad command")?;
            Ok((text, USAGE))
        }
        ProgramFault::Device => Ok((String::new(alloc), DEVICE)),
        ProgramFault::NoMemory => Ok((String::new(alloc), MEMORY)),
    }
}

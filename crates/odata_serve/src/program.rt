//! The answer to a stream over a folder.
ghost use Rattle.std.specs.Prelude.{◌≡◌, ◌<◌, ◌^◌, IfOk, string_bytes};
ghost use Rattle.odata_http.specs.Device.{CountsFit};
ghost use Rattle.odata_http.specs.Runs.{course};
ghost use Rattle.odata_serve.specs.Laws.{ServeSizes};
ghost use Rattle.odata_serve.specs.Program.{IsAnswer, IsQuery, request_to};
ghost use Rattle.served_folders.specs.Loads.{loading};

use exit_statuses::{MAX_READS, ProgramFault};
use odata_http::{Counted, Sink, Source, run};
use served_folders::Folders;
use std::alloc::{AllocError, Global};

/// The numbers of the program: its limits and its exit statuses.
pub fn sizes()
    ensures { ServeSizes }
{}

/// Loads the folder of that name, and answers the input's stream over it in the output, in at most [`MAX_READS`] reads.
pub fn answer<F: Folders, R: Source, W: Sink>(
    alloc: Global,
    folders: &mut F,
    name: &str,
    input: &mut R,
    out: &mut W,
) -> Result<(), ProgramFault>
    requires { CountsFit (R.source input.old) (W.sink out.old) }
    ensures { IsAnswer (loading name.now (F.folders folders.old) (F.folders folders.new))
        (course (R.source input.old) (R.source input.new) (W.sink out.old) (W.sink out.new))
        result }
{
    let catalog = match folders.load(alloc, name) {
        Ok(catalog) => catalog,
        Err(fault) => return Err(ProgramFault::Folder(fault)),
    };
    match run(alloc, &catalog, input, out, MAX_READS) {
        Ok(()) => Ok(()),
        Err(fault) => Err(ProgramFault::Run(fault)),
    }
}

/// Returns the stream of one GET of a target, after which the connection closes.
pub fn request_to(alloc: Global, target: &str) -> Result<String, AllocError>
    ensures { IfOk result (λ request. string_bytes request ≡ request_to target.now) }
{
    format!(in alloc; "GET {target} HTTP/1.1\r\nHost: localhost\r\nConnection: close\r\n\r\n")
}

/// Loads the folder of that name, and answers one GET of a target over it in the output, as [`answer`] does the stream of [`request_to`].
pub fn query<F: Folders, W: Sink>(
    alloc: Global,
    folders: &mut F,
    name: &str,
    target: &str,
    out: &mut W,
) -> Result<(), ProgramFault>
    requires failed_writes { (W.sink out.old).failed_writes < 2 ^ 63 }
    ensures { IsQuery target.now
        (loading name.now (F.folders folders.old) (F.folders folders.new))
        (W.sink out.old) (W.sink out.new) result }
{
    let request = request_to(alloc, target)?;
    let mut input = Counted::new(request.as_bytes());
    answer(alloc, folders, name, &mut input, out)
}

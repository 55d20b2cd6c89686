//! The status after the last flush of the output.
ghost use Rattle.std.specs.Prelude.{◌≡◌, ◌≢◌, ◌↔◌, IsOk, OnErr};
ghost use Rattle.vd_runner.specs.declared.status.Status.TheVariants as variant;

use vd_runner::Status;
use vd_stream::Failed;

/// The status with which the program ends: Ok only where all that the output was given is written out too.
pub fn ended(status: Status, flush: Result<(), Failed>) -> Status
    ensures whole { (result ≡ variant.Ok) ↔ ((status ≡ variant.Ok) × IsOk flush) }
    ensures fault { status ≡ variant.Ok → OnErr flush (result ≡ variant.WriteFault) }
    ensures other { status ≢ variant.Ok → result ≡ status }
{
    match (status, flush) {
        (Status::Ok, Err(Failed)) => Status::WriteFault,
        (status, _) => status,
    }
}

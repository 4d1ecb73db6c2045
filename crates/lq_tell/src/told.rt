ghost use Rattle.std.specs.Option.{option_copied};
ghost use Rattle.std.specs.Prelude.{◌≡◌, false, true, Err, IfErr, IfOk, Ok};
ghost use Rattle.lq_tell.specs.Lines.{status_lines, warning_lines, stands_alone};
ghost use Rattle.lq_tell.specs.Texts.{IsTold};

use crate::done::Done;
use crate::lines::{status_lines, warning_lines};
use crate::status::Status;
use lq_base::{Identity, Text, Why};
use std::alloc::Global;

/// How a command ended, with its texts.
#[derive(Drop)]
pub struct Told {
    pub status: Status,
    /// For the output.
    pub out: Option<Text>,
    /// For the log, before the lines of the status.
    pub warnings: Text,
    /// The lines of the status.
    pub lines: Text,
}

/// Makes the texts of a command; a rollback to a tag names it. A status whose line stands alone comes
/// back without texts.
pub fn told_of(alloc: Global, done: Result<Done, Status>, tag: Option<&str>) -> Result<Told, Status>
    ensures { IsTold (option_copied tag.entry) done result }
{
    match done {
        Ok(done) => tell_done(alloc, done, tag),
        Err(status) => tell_refused(alloc, status, tag),
    }
}

fn tell_done(alloc: Global, done: Done, tag: Option<&str>) -> Result<Told, Status>
    ensures { IsTold (option_copied tag.entry) (Ok done) result }
{
    let Done {
        status,
        out,
        own,
        warned,
    } = done;
    if stands_alone(&status) {
        return Err(status);
    }
    tell_with(alloc, status, out, own, warned.as_slice(), tag)
}

fn tell_refused(alloc: Global, status: Status, tag: Option<&str>) -> Result<Told, Status>
    ensures { IsTold (option_copied tag.entry) (Err status) result }
{
    if stands_alone(&status) {
        return Err(status);
    }
    tell_with(alloc, status, None, None, &[], tag)
}

fn tell_with(
    alloc: Global,
    status: Status,
    out: Option<Text>,
    own: Option<Why>,
    warned: &[(Option<Identity>, Why)],
    tag: Option<&str>,
) -> Result<Told, Status>
    ensures status { IfOk result (λ told. told.status ≡ status) }
    ensures out { IfOk result (λ told. told.out ≡ out) }
    ensures warnings { IfOk result (λ told. told.warnings ≡ warning_lines own warned.now) }
    ensures lines { IfOk result
        (λ told. told.lines ≡ status_lines (option_copied tag.entry) status) }
    ensures no_memory { IfErr result (λ fault. fault ≡ Status.OutOfMemory) }
{
    let warnings = warning_lines(alloc, own, warned)?;
    let lines = status_lines(alloc, &status, tag)?;
    Ok(Told {
        status,
        out,
        warnings,
        lines,
    })
}

/// Whether the line of the status needs no memory, and no warnings stand before it.
fn stands_alone(status: &Status) -> bool
    ensures { result ≡ stands_alone status.now }
{
    match status {
        Status::Usage | Status::ReadFault | Status::DiskFault | Status::OutOfMemory => true,
        _ => false,
    }
}

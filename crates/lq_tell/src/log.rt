ghost use Rattle.std.specs.Option.{option_map};
ghost use Rattle.std.specs.Prelude.{◌≡◌, ◌++◌, OnErr, OnOk};
ghost use Rattle.lq_outside.specs.Forms.{Rose, IsPart};
ghost use Rattle.lq_tell.specs.Lines.{lone_line};

use crate::status::Status;
use lq_outside::{Sink, SinkFailed, write_all};
use lq_report::FixedLine;

/// The log's line for a status that stands alone; nothing for another.
pub fn lone_line(status: &Status) -> &'static str
    ensures { result.now ≡ lone_line status.now }
{
    match status {
        Status::Usage => FixedLine::Usage.text(),
        Status::ReadFault => FixedLine::ReadFault.text(),
        Status::DiskFault => FixedLine::DiskFault.text(),
        Status::OutOfMemory => FixedLine::OutOfMemory.text(),
        _ => "",
    }
}

fn write_line<L: Sink>(line: &str, log: &mut L) -> Result<(), SinkFailed>
    ensures part { IsPart line.now (L.told log.old) (L.told log.new) }
    ensures whole { OnOk result
        (L.told log.new ≡ option_map (λ before. before ++ line.now) (L.told log.old)) }
    ensures stays { OnOk result (L.faults log.new ≡ L.faults log.old) }
    ensures failed { OnErr result (Rose (L.faults log.old) (L.faults log.new)) }
{
    write_all(log, line.as_bytes())
}

fn write_lines<L: Sink>(warnings: &str, lines: &str, log: &mut L) -> Result<(), SinkFailed>
    ensures part { IsPart (warnings.now ++ lines.now) (L.told log.old) (L.told log.new) }
    ensures whole { OnOk result
        (L.told log.new
        ≡ option_map (λ before. before ++ (warnings.now ++ lines.now)) (L.told log.old)) }
    ensures failed { OnErr result (Rose (L.faults log.old) (L.faults log.new)) }
{
    match write_line(warnings, log) {
        Ok(()) => write_line(lines, log),
        Err(fault) => Err(fault),
    }
}

/// Writes warnings to the log and then a status's lines. That the log fails is dropped.
pub fn log_lines<L: Sink>(warnings: &str, lines: &str, log: &mut L)
    ensures part { IsPart (warnings.now ++ lines.now) (L.told log.old) (L.told log.new) }
    ensures whole { (Rose (L.faults log.old) (L.faults log.new) → ⊥)
        → L.told log.new
        ≡ option_map (λ before. before ++ (warnings.now ++ lines.now)) (L.told log.old) }
{
    let _ = write_lines(warnings, lines, log);
}

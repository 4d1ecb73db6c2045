ghost use Rattle.std.specs.Prelude.{◌≡◌, ◌++◌, OnOk};
ghost use Rattle.lq_faultlog.specs.Lines.{load_fault_line, rule_line, what_line};
ghost use Rattle.lq_report.specs.Output.{fixed_line};

use lq_base::{KindFault, NoMemory, Text};
use lq_report::{
    FixedLine, append_dialect_fault, append_file_fault, append_key_fault, append_line_fault,
    append_no_file,
};
use lq_sources::{LoadFault, What};
use std::alloc::Global;

fn append_fixed(line: FixedLine, to: &mut Text) -> Result<(), NoMemory>
    ensures { OnOk result (to.new ≡ to.old ++ fixed_line line) }
{
    to.push_str(line.text())
}

fn append_rule(alloc: Global, path: &str, fault: &KindFault, to: &mut Text) -> Result<(), NoMemory>
    ensures { OnOk result (to.new ≡ to.old ++ rule_line path.now fault.now) }
{
    match fault {
        KindFault::Missing(place) => append_key_fault(alloc, path, place.as_str(), "missing", to),
        KindFault::Unknown(place) => append_key_fault(alloc, path, place.as_str(), "unknown", to),
        KindFault::Bad(place) => append_key_fault(alloc, path, place.as_str(), "bad", to),
        KindFault::NotFor {
            path: place,
            dialect,
        } => append_dialect_fault(alloc, path, place.as_str(), *dialect, to),
        KindFault::OutOfMemory => append_fixed(FixedLine::OutOfMemory, to),
    }
}

fn append_what(alloc: Global, path: &str, what: &What, to: &mut Text) -> Result<(), NoMemory>
    ensures { OnOk result (to.new ≡ to.old ++ what_line path.now what.now) }
{
    match what {
        What::NotJson => append_file_fault(alloc, path, "not JSON", to),
        What::FloatNumber => append_file_fault(alloc, path, "float number", to),
        What::NotUtf8 => append_file_fault(alloc, path, "not UTF-8", to),
        What::TooDeep => append_file_fault(alloc, path, "too deep", to),
        What::NoHeader => append_file_fault(alloc, path, "no header", to),
        What::UnknownFormat => append_file_fault(alloc, path, "unknown format", to),
        What::BadPath => append_file_fault(alloc, path, "bad path", to),
        What::Line(line) => append_line_fault(alloc, path, *line, to),
        What::Key(fault) => append_rule(alloc, path, fault, to),
    }
}

/// Appends the line of the log for why no changelog was loaded: the file, and what is wrong in it; at
/// a key of its tree the key's place and the rule that does not hold there. Control characters of the
/// path and the place are `_`.
pub fn append_load_fault(alloc: Global, fault: &LoadFault, to: &mut Text) -> Result<(), NoMemory>
    ensures { OnOk result (to.new ≡ to.old ++ load_fault_line fault.now) }
{
    match fault {
        LoadFault::Read => append_fixed(FixedLine::ReadFault, to),
        LoadFault::NoFile(path) => append_no_file(alloc, path.as_str(), to),
        LoadFault::Xml(path) => append_file_fault(alloc, path.as_str(), "XML is not read", to),
        LoadFault::Fault { path, what } => append_what(alloc, path.as_str(), what, to),
        LoadFault::TooDeep(path) => append_file_fault(
            alloc,
            path.as_str(),
            "includes too deep",
            to,
        ),
        LoadFault::TooMany => append_fixed(FixedLine::TooMany, to),
        LoadFault::TooLong(path) => append_file_fault(alloc, path.as_str(), "too long", to),
        LoadFault::OutOfMemory => append_fixed(FixedLine::OutOfMemory, to),
    }
}

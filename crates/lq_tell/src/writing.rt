ghost use Rattle.std.specs.Option.{option_copied, option_map};
ghost use Rattle.std.specs.Prelude.{◌≡◌, ◌⊎◌, ◌++◌, IsTrue, List, Ok, OnErr, OnOk, Option, Result, false, is_some, true, ℕ};
ghost use Rattle.lq_outside.specs.Forms.{Rose, IsPart};
ghost use Rattle.lq_tell.specs.Lines.{log_text};
ghost use Rattle.lq_tell.specs.declared.done.Done.{Done};
ghost use Rattle.lq_tell.specs.declared.status.Status.{Status};
ghost use Rattle.lq_tell.specs.Texts.{HasTexts, EndsAs, IsSilent, has_output, out_of, out_text, status_done, text_or_none};

use crate::done::Done;
use crate::log::{log_lines, lone_line};
use crate::status::Status;
use crate::told::{Told, told_of};
use lq_base::Text;
use lq_outside::{Sink, SinkFailed, write_all};
use lq_report::FixedLine;
use std::alloc::Global;

/// Writes the texts of a command, and gives its status; a rollback to a tag names it. Both texts are
/// made before either is written. Where the output fails the status is `WriteFault`; that the log fails
/// is dropped.
pub fn tell<O: Sink, L: Sink>(
    alloc: Global,
    done: Result<Done, Status>,
    tag: Option<&str>,
    out: &mut O,
    log: &mut L,
) -> Status
    ensures status { EndsAs (status_done done) result }
    ensures write { result ≡ Status.WriteFault
        → (status_done done ≡ Status.WriteFault) ⊎ Rose (O.faults out.old)
        (O.faults out.new) }
    ensures cut { result ≡ Status.WriteFault
        → (status_done done ≡ Status.WriteFault) ⊎ IsTrue (has_output (status_done done)) }
    ensures had { result ≡ Status.WriteFault
        → (status_done done ≡ Status.WriteFault) ⊎ IsTrue (is_some (out_of done)) }
    ensures silent { IsSilent result → O.told out.new ≡ O.told out.old }
    ensures whole { IsTrue (has_output result)
        → O.told out.new ≡ option_map (λ before. before ++ out_text done) (O.told out.old) }
    ensures part { IsPart (out_text done) (O.told out.old) (O.told out.new) }
    ensures logged { (Rose (L.faults log.old) (L.faults log.new) → ⊥)
        → L.told log.new
        ≡ option_map (λ before. before ++ log_text (option_copied tag.entry) done result)
        (L.told log.old) }
    ensures log_part { IsPart (log_text (option_copied tag.entry) done result) (L.told log.old)
        (L.told log.new) }
{
    match told_of(alloc, done, tag) {
        Ok(told) => write_told(told, out, log),
        Err(status) => {
            log_lines("", lone_line(&status), log);
            status
        }
    }
}

fn write_told<O: Sink, L: Sink>(told: Told, out: &mut O, log: &mut L) -> Status
    ensures status { (result ≡ told.status) ⊎ (result ≡ Status.WriteFault) }
    ensures write { result ≡ Status.WriteFault
        → (told.status ≡ Status.WriteFault) ⊎ Rose (O.faults out.old) (O.faults out.new) }
    ensures cut { result ≡ Status.WriteFault
        → (told.status ≡ Status.WriteFault) ⊎ IsTrue (has_output told.status) }
    ensures had { result ≡ Status.WriteFault
        → (told.status ≡ Status.WriteFault) ⊎ IsTrue (is_some told.out) }
    ensures silent { IsSilent result → O.told out.new ≡ O.told out.old }
    ensures whole { IsTrue (has_output result)
        → O.told out.new
        ≡ option_map (λ before. before ++ text_or_none told.out) (O.told out.old) }
    ensures part { IsPart (text_or_none told.out) (O.told out.old) (O.told out.new) }
    ensures logged { (tag : Option (List ℕ)) (done : Result Done Status)
        → HasTexts tag done told
        → (Rose (L.faults log.old) (L.faults log.new) → ⊥)
        → L.told log.new
        ≡ option_map (λ before. before ++ log_text tag done result) (L.told log.old) }
    ensures log_part { (tag : Option (List ℕ)) (done : Result Done Status)
        → HasTexts tag done told
        → IsPart (log_text tag done result) (L.told log.old) (L.told log.new) }
{
    let Told {
        status,
        out: text,
        warnings,
        lines,
    } = told;
    match write_text(&status, &text, out) {
        Ok(()) => {
            log_lines(warnings.as_str(), lines.as_str(), log);
            status
        }
        Err(_) => {
            log_lines(warnings.as_str(), FixedLine::WriteFault.text(), log);
            Status::WriteFault
        }
    }
}

// Writes the text for the output, where the status is one with an output.
fn write_text<O: Sink>(status: &Status, text: &Option<Text>, out: &mut O) -> Result<(), SinkFailed>
    ensures silent { has_output status.now ≡ false
        → (result ≡ Ok tt) × (O.told out.new ≡ O.told out.old) }
    ensures none { is_some text.now ≡ false → result ≡ Ok tt }
    ensures whole { has_output status.now ≡ true
        → OnOk result
        (O.told out.new
        ≡ option_map (λ before. before ++ text_or_none text.now) (O.told out.old)) }
    ensures part { IsPart (text_or_none text.now) (O.told out.old) (O.told out.new) }
    ensures failed { OnErr result (Rose (O.faults out.old) (O.faults out.new)) }
{
    if status.has_output() {
        write_some(text, out)
    } else {
        Ok(())
    }
}

fn write_some<O: Sink>(text: &Option<Text>, out: &mut O) -> Result<(), SinkFailed>
    ensures none { is_some text.now ≡ false → result ≡ Ok tt }
    ensures whole { OnOk result
        (O.told out.new
        ≡ option_map (λ before. before ++ text_or_none text.now) (O.told out.old)) }
    ensures part { IsPart (text_or_none text.now) (O.told out.old) (O.told out.new) }
    ensures failed { OnErr result (Rose (O.faults out.old) (O.faults out.new)) }
{
    match text {
        Some(text) => write_all(out, text.as_str().as_bytes()),
        None => Ok(()),
    }
}

ghost use Rattle.std.specs.Prelude.{◌≡◌, ◌⊎◌, List, None, Some, false, map, string_bytes, true, ℕ};
ghost use Rattle.std.specs.Option.{option_copied};
ghost use Rattle.lq_base.specs.declared.identity.Identity.{Identity};
ghost use Rattle.lq_base.specs.declared.run.Why.{Why};
ghost use Rattle.lq_cli.specs.Line.{line_of};
ghost use Rattle.lq_cli.specs.declared.line.Job.TheVariants as job;
ghost use Rattle.lq_cli.specs.declared.line.Line.{Line};
ghost use Rattle.lq_commands.specs.Stamp.{stamp_of};
ghost use Rattle.lq_outside.specs.Forms.{Rose};
ghost use Rattle.lq_sources.specs.declared.fault.LoadFault.{LoadFault};
ghost use Rattle.lq_tell.specs.Lines.{status_lines};
ghost use Rattle.lq_tell.specs.Texts.{IsSilent};
ghost use Rattle.lq_tell.specs.declared.status.Status.TheVariants as status;
ghost use Rattle.lq_drills.specs.Players.{TakesSteps};
ghost use Rattle.lq_jobs.specs.Asks.{Asks, AsksInVain, HasFault, HasNoForm, HasNoPart, IsFaultOf, IsUsage, asked_tag, asks_drill};
ghost use Rattle.lq_jobs.specs.Bytes.{IsDamagedAt};
ghost use Rattle.lq_jobs.specs.Kinds.{ReadAtMostOnce, ReadUpTo};
ghost use Rattle.lq_drills.specs.Drilled.{AsksDrill, RunsDrill};
ghost use Rattle.lq_jobs.specs.Headline.{GoesBack, GoneBack, HasCleared, HasRehearsed, HasSynced, HasUpdated, IsTaken, Rehearses, LeavesMarked, RollbackResumes, UpdateResumes, TakesPartBack, UpdateMends};
ghost use Rattle.lq_jobs.specs.Jobs.{is_apart, misses};
ghost use Rattle.lq_jobs.specs.Run.{Crashes, EndsInVain, EndsUnread, IsDamage, IsLogged, IsLoggedInPart, IsSafe, IsUnread, OpensAtCrash, Runs, SparesDamage};
ghost use Rattle.lq_jobs.specs.Says.{ComesAgain, Said, SaidInPart, Warns, WarnsAtFull, WarnsAtFullInPart, WarnsInPart};
ghost use Rattle.lq_jobs.specs.Worked.{CrashesSnapshot, IsSnapshotSafe, RunsSnapshots, SnapshotOpens};
ghost use Rattle.lq_soak.specs.Soaked.{SaysSoak};
ghost use Rattle.lq_jobs.specs.Undone.{CrashesUndone, IsUndoneSafe, RunsUndone, UndoneOpens};

use crate::work::{Ending, work};
use laws_undo::laws::{parts_are_taken_back, undo_mends};
use lq_base::Text;
use lq_changelog::laws::what_is_given_is_for_the_dialect;
use lq_outside::{Clock, Disk, Files, Sink};
use lq_tell::{Status, tell};
use std::alloc::Global;

/// How a command ended, and its disk.
#[derive(Drop)]
pub struct Ended<D: Disk> {
    pub status: Status,
    pub disk: D,
}

/// Runs the command that the words ask for, which are those after the program's name. The disk is the
/// database file, and comes back with every status. The lock names `who`, in whom each `|` and each
/// control character is `_`.
///
/// A drill runs the commands of a file of runs beside one another, step by step as the file says.
///
/// Where the command did its work its text is written to `out`; for every status but `Done` the log
/// gets lines, and for each precondition that only warns.
pub fn run<F: Files, D: Disk, C: Clock, O: Sink, L: Sink>(
    alloc: Global,
    words: &[String],
    who: &str,
    files: &mut F,
    disk: D,
    clock: &mut C,
    out: &mut O,
    log: &mut L,
) -> Ended<D>
    // Each status by its cause.
    ensures usage { result.status ≡ status.Usage
        → IsUsage (map (λ word. string_bytes word) words.now) (F.told files.old) }
    ensures usage_only { line_of (map (λ word. string_bytes word) words.now) ≡ None
        → (result.status ≡ status.Usage) ⊎ (result.status ≡ status.OutOfMemory) }
    ensures formless { HasNoForm (map (λ word. string_bytes word) words.now) (F.told files.old)
        → (result.status ≡ status.Usage)
        ⊎ (result.status ≡ status.ReadFault)
        ⊎ (result.status ≡ status.OutOfMemory) }
    ensures read { result.status ≡ status.ReadFault
        → Rose (F.faults files.old) (F.faults files.new) }
    ensures changelog { (fault : LoadFault)
        → result.status ≡ status.Changelog fault
        → IsFaultOf (map (λ word. string_bytes word) words.now) (F.told files.old) fault }
    ensures changelog_only { (fault : LoadFault)
        → HasFault (map (λ word. string_bytes word) words.now) (F.told files.old) fault
        → EndsUnread fault result.status }
    ensures missed { (line : Line)
        → line_of (map (λ word. string_bytes word) words.now) ≡ Some line
        → misses line.job result.status ≡ true
        → HasNoPart (F.told files.old) line × (result.disk ≡ disk) }
    ensures in_vain { AsksInVain (map (λ word. string_bytes word) words.now) (F.told files.old)
        → EndsInVain result.status disk result.disk }
    ensures damaged { (line : Line)
        → line_of (map (λ word. string_bytes word) words.now) ≡ Some line
        → IsDamage line.options.dialect (D.told disk) result.status }
    ensures damaged_only { (line : Line) (at : ℕ)
        → line_of (map (λ word. string_bytes word) words.now) ≡ Some line
        → is_apart line.job ≡ false
        → IsDamagedAt line.options.dialect (D.told disk) at
        → SparesDamage line.job at result.status (D.told disk) (D.told result.disk) }
    ensures disk { result.status ≡ status.DiskFault
        → Rose (D.faults disk) (D.faults result.disk) }
    ensures write { result.status ≡ status.WriteFault
        → Rose (O.faults out.old) (O.faults out.new) }

    // What a command is refused for, in the order of its checks, and what its calls leave; a refusal writes nothing.
    ensures runs { (asks : Asks (map (λ word. string_bytes word) words.now) (F.told files.old))
        → Runs asks (stamp_of who.now (C.last clock.new)) (D.told disk) result.status
        (D.told result.disk) }
    ensures untouched { IsUnread result.status → result.disk ≡ disk }
    // A crash of the machine at any moment, how what it left is opened, and after the end.
    ensures any_moment { (asks : Asks (map (λ word. string_bytes word) words.now)
        (F.told files.old))
        → Crashes asks (stamp_of who.now (C.last clock.new)) (D.told disk) (D.crashes disk)
        (D.crashes result.disk) }
    ensures opens_at_crash { (asks : Asks (map (λ word. string_bytes word) words.now)
        (F.told files.old))
        → (bytes : List ℕ)
        → OpensAtCrash asks (stamp_of who.now (C.last clock.new)) (D.told disk) bytes }
    ensures safe { (asks : Asks (map (λ word. string_bytes word) words.now) (F.told files.old))
        → IsSafe asks result.status (D.told result.disk) (D.crashes result.disk) }
    ensures soak { (line : Line)
        → line_of (map (λ word. string_bytes word) words.now) ≡ Some line
        → is_apart line.job ≡ true
        → result.disk ≡ disk }

    // What an update, a rollback and a changelog-sync say that come to their end: by their turns and rows.
    ensures says { (asks : Asks (map (λ word. string_bytes word) words.now) (F.told files.old))
        → Said asks (stamp_of who.now (C.last clock.new)) (D.told disk) result.status
        (O.told out.old) (O.told out.new) }

    // Where the output failed it got a front of that text.
    ensures says_part { (asks : Asks (map (λ word. string_bytes word) words.now)
        (F.told files.old))
        → result.status ≡ status.WriteFault
        → SaidInPart asks (stamp_of who.now (C.last clock.new)) (D.told disk) (O.told out.old)
        (O.told out.new) }

    // What a generate-changelog says, as a JSON file and without properties, is a changelog. An update of a new database with it runs each changeset, has nothing that is not fresh, and leaves the users' objects without rows; each change can be taken back.
    ensures again { (asks : Asks (map (λ word. string_bytes word) words.now) (F.told files.old))
        → ComesAgain asks (stamp_of who.now (C.last clock.new)) (D.told disk) result.status }

    // What a soak says: the function of its number, its changesets, who runs it and the reading that its definition states; and what any other status of it comes of.
    ensures soaks { (line : Line)
        → line_of (map (λ word. string_bytes word) words.now) ≡ Some line
        → (number sets : ℕ)
        → line.job ≡ job.Soak number sets
        → SaysSoak line.options.dialect number sets (stamp_of who.now (C.last clock.new))
        result.status (O.told out.old) (O.told out.new) }

    // The headline.
    ensures success { GoesBack (map (λ word. string_bytes word) words.now) (F.told files.old)
        (D.told disk)
        → IsTaken result.status }
    ensures rollback { (back : GoesBack (map (λ word. string_bytes word) words.now)
        (F.told files.old) (D.told disk))
        → GoneBack back result.status (D.told result.disk) }
    ensures update { (asks : Asks (map (λ word. string_bytes word) words.now) (F.told files.old))
        → HasUpdated asks (stamp_of who.now (C.last clock.new)) (D.told disk) result.status
        (D.told result.disk) }
    ensures sync { (asks : Asks (map (λ word. string_bytes word) words.now) (F.told files.old))
        → HasSynced asks (stamp_of who.now (C.last clock.new)) (D.told disk) result.status
        (D.told result.disk) }

    ensures cleared { (asks : Asks (map (λ word. string_bytes word) words.now) (F.told files.old))
        → HasCleared asks (stamp_of who.now (C.last clock.new)) (D.told disk) result.status
        (D.told result.disk) }

    // A rehearsal of first turns that can be taken back: nothing refuses it, and it leaves what its update leaves.
    ensures rehearsed { Rehearses (map (λ word. string_bytes word) words.now) (F.told files.old)
        (stamp_of who.now (C.last clock.new)) (D.told disk)
        → IsTaken result.status }
    ensures rehearsal { (it : Rehearses (map (λ word. string_bytes word) words.now)
        (F.told files.old) (stamp_of who.now (C.last clock.new)) (D.told disk))
        → HasRehearsed it result.status (D.told result.disk) }

    // A steady update, and a rollback by tag or date, that were stopped any number of times, in postgresql.
    ensures resumed_update { (asks : Asks (map (λ word. string_bytes word) words.now)
        (F.told files.old))
        → UpdateResumes asks (stamp_of who.now (C.last clock.new)) (D.told disk) result.status
        (D.told result.disk) }
    ensures resumed_rollback { (asks : Asks (map (λ word. string_bytes word) words.now)
        (F.told files.old))
        → RollbackResumes asks (stamp_of who.now (C.last clock.new)) (D.told disk) result.status
        (D.told result.disk) }

    // What a stop leaves that holds the lock: in the end, and on any bytes that a crash of the machine left.
    ensures marked { (asks : Asks (map (λ word. string_bytes word) words.now) (F.told files.old))
        → LeavesMarked asks (stamp_of who.now (C.last clock.new)) (D.told disk)
        (D.told result.disk) }
    ensures marked_at_crash { (asks : Asks (map (λ word. string_bytes word) words.now)
        (F.told files.old))
        → (bytes : List ℕ)
        → LeavesMarked asks (stamp_of who.now (C.last clock.new)) (D.told disk) (Some bytes) }

    // A command by itself takes the steps of a schedule of this one runner, until it answers.
    ensures alone { (asks : Asks (map (λ word. string_bytes word) words.now) (F.told files.old))
        → TakesSteps asks (stamp_of who.now (C.last clock.new)) (D.told disk) result.status
        (D.told result.disk) }

    // A drill: its commands take their steps as the runners of the machine do, each with its own reading of the clock.
    ensures drill { (asks : AsksDrill (map (λ word. string_bytes word) words.now)
        (F.told files.old))
        → RunsDrill asks who.now (C.to_come clock.old) (C.to_come clock.new) (D.told disk)
        (D.crashes disk) result.status (D.told result.disk) (D.crashes result.disk)
        (O.told out.old) (O.told out.new) }

    // What undo-unrecorded is refused for, in the order of its checks, what its calls leave, and what it says; a crash of the machine at any moment of it, and after its end.
    ensures undone { (asks : Asks (map (λ word. string_bytes word) words.now) (F.told files.old))
        → RunsUndone asks (D.told disk) result.status (D.told result.disk) (O.told out.old)
        (O.told out.new) }
    ensures undone_at_crash { (asks : Asks (map (λ word. string_bytes word) words.now)
        (F.told files.old))
        → CrashesUndone asks (D.told disk) (D.crashes disk) (D.crashes result.disk) }
    ensures undone_safe { (asks : Asks (map (λ word. string_bytes word) words.now)
        (F.told files.old))
        → IsUndoneSafe asks result.status (D.told result.disk) (D.crashes result.disk) }

    // What such a crash left is opened again. Where an update was stopped within a changeset that ran for the first time, it comes back to what stood before, also after stops of its own; and a steady update in mysql that was stopped so, any number of times, leaves what it would have left.
    ensures undone_opens { (asks : Asks (map (λ word. string_bytes word) words.now)
        (F.told files.old))
        → (bytes : List ℕ)
        → UndoneOpens asks (D.told disk) bytes }
    ensures taken_back { (asks : Asks (map (λ word. string_bytes word) words.now)
        (F.told files.old))
        → TakesPartBack asks (D.told disk) result.status (D.told result.disk) }
    ensures mended { (asks : Asks (map (λ word. string_bytes word) words.now) (F.told files.old))
        → UpdateMends asks (stamp_of who.now (C.last clock.new)) (D.told disk) result.status
        (D.told result.disk) }

    // What snapshot is refused for, what it leaves and says, and that it is opened again with the same database; and a crash of the machine at any moment of it, and after its end.
    ensures snapshots { (asks : Asks (map (λ word. string_bytes word) words.now)
        (F.told files.old))
        → RunsSnapshots asks (D.told disk) result.status (D.told result.disk) (O.told out.old)
        (O.told out.new) }
    ensures snapshot_at_crash { (asks : Asks (map (λ word. string_bytes word) words.now)
        (F.told files.old))
        → CrashesSnapshot asks (D.told disk) (D.crashes disk) (D.crashes result.disk) }
    ensures snapshot_opens { (asks : Asks (map (λ word. string_bytes word) words.now)
        (F.told files.old))
        → (bytes : List ℕ)
        → SnapshotOpens asks (D.told disk) bytes }
    ensures snapshot_safe { (asks : Asks (map (λ word. string_bytes word) words.now)
        (F.told files.old))
        → IsSnapshotSafe asks result.status (D.told result.disk) (D.crashes result.disk) }

    // The clock is read at most once, and by a drill for each of its commands.
    ensures once { asks_drill (line_of (map (λ word. string_bytes word) words.now)) ≡ false
        → ReadAtMostOnce (C.to_come clock.old) (C.to_come clock.new) (C.last clock.new) }
    ensures reads { ReadUpTo 64 (C.to_come clock.old) (C.to_come clock.new) }

    // Without an end in the run there is no output. The log gets the lines of the status, behind those of warnings, of which there are none without an end in the run. Of a command that came to its end it is known which: those of an update's turns, the changelog's own first; at a full journal a front of those. A log that failed got a front of them all.
    ensures silent { IsSilent result.status → O.told out.new ≡ O.told out.old }
    ensures logged { (Rose (L.faults log.old) (L.faults log.new) → ⊥)
        → IsLogged (asked_tag (line_of (map (λ word. string_bytes word) words.now)))
        result.status
        (L.told log.old) (L.told log.new) }
    ensures warns { (asks : Asks (map (λ word. string_bytes word) words.now) (F.told files.old))
        → (Rose (L.faults log.old) (L.faults log.new) → ⊥)
        → Warns asks (stamp_of who.now (C.last clock.new)) (D.told disk) result.status
        (L.told log.old) (L.told log.new) }
    ensures warns_part { (asks : Asks (map (λ word. string_bytes word) words.now)
        (F.told files.old))
        → WarnsInPart asks (stamp_of who.now (C.last clock.new)) (D.told disk) result.status
        (L.told log.old) (L.told log.new) }
    ensures warns_at_full { (asks : Asks (map (λ word. string_bytes word) words.now)
        (F.told files.old))
        → (Rose (L.faults log.old) (L.faults log.new) → ⊥)
        → WarnsAtFull asks (stamp_of who.now (C.last clock.new)) (D.told disk) result.status
        (L.told log.old) (L.told log.new) }
    ensures warns_at_full_part { (asks : Asks (map (λ word. string_bytes word) words.now)
        (F.told files.old))
        → WarnsAtFullInPart asks (stamp_of who.now (C.last clock.new)) (D.told disk) result.status
        (L.told log.old) (L.told log.new) }
    ensures log_part { IsLoggedInPart
        (asked_tag (line_of (map (λ word. string_bytes word) words.now))) result.status
        (L.told log.old) (L.told log.new) }
{
    what_is_given_is_for_the_dialect();
    parts_are_taken_back();
    undo_mends();
    let Ending { disk, done, tag } = work(alloc, words, who, files, disk, clock);
    let status = tell(alloc, done, text_of(&tag), out, log);
    Ended { status, disk }
}

fn text_of(tag: &Option<Text>) -> Option<&str>
    ensures { option_copied result ≡ tag.now }
{
    match tag {
        Some(tag) => Some(tag.as_str()),
        None => None,
    }
}

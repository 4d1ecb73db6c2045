ghost use Rattle.std.specs.Prelude.{◌≡◌, ◌++◌, ◌∷◌, [], List, OnErr, OnOk, false, true};
ghost use Rattle.lq_base.specs.declared.run.Happened.{Happened as Event};
ghost use Rattle.lq_seen.specs.Telling.{IsTakenBack, happened_as, happened_instead, happens, told_by, warned_of};
ghost use Rattle.lq_turns.specs.Settle.{did_of};

use crate::outcome::{Halt, Outcome};
use lq_base::{Did, Duplicate, Happened, Identity, Items, NoMemory, Why};
use lq_turns::{Choice, What};
use std::alloc::Global;

/// Writes down what a changeset does by its choice, where its turn finishes. Where there is no memory,
/// nothing more is warned of.
pub fn tell(
    alloc: Global,
    identity: &Identity,
    choice: Choice,
    outcome: &mut Outcome,
) -> Result<(), NoMemory>
    ensures told { OnOk result (outcome.new ≡ told_by identity.now choice outcome.old) }
    ensures unwarned { OnErr result (outcome.new.warned ≡ outcome.old.warned) }
{
    match choice {
        Choice::Passes => Ok(()),
        Choice::Fills => Ok(()),
        Choice::Skips => {
            tell_did(alloc, identity, Did::Skipped, &mut outcome.happened)?;
            Ok(())
        }
        Choice::Marks(_) => {
            tell_did(alloc, identity, Did::Marked, &mut outcome.happened)?;
            Ok(())
        }
        Choice::Runs(what, why) => {
            tell_did(alloc, identity, did_of(what), &mut outcome.happened)?;
            tell_warning(alloc, identity, why, &mut outcome.warned)?;
            Ok(())
        }
        Choice::Halts(why) => {
            let identity = identity.duplicate(alloc)?;
            outcome.halted = Some(Halt {
                identity: Some(identity),
                why,
            });
            Ok(())
        }
    }
}

fn did_of(what: What) -> Did
    ensures { result ≡ did_of what }
{
    match what {
        What::New => Did::Ran,
        What::Again => Did::RanAgain,
        What::Fill => Did::RanAgain,
    }
}

fn tell_did(
    alloc: Global,
    identity: &Identity,
    what: Did,
    happened: &mut Items<Happened>,
) -> Result<(), NoMemory>
    ensures { OnOk result (happened.new ≡ happened.old ++ happened_as identity.now what ∷ []) }
{
    let identity = identity.duplicate(alloc)?;
    happened.push(Happened { what, identity })?;
    Ok(())
}

fn tell_warning(
    alloc: Global,
    identity: &Identity,
    why: Option<Why>,
    warned: &mut Items<(Option<Identity>, Why)>,
) -> Result<(), NoMemory>
    ensures told { OnOk result (warned.new ≡ warned.old ++ warned_of identity.now why) }
    ensures unwarned { OnErr result (warned.new ≡ warned.old) }
{
    match why {
        None => Ok(()),
        Some(why) => {
            let identity = identity.duplicate(alloc)?;
            warned.push((Some(identity), why))?;
            Ok(())
        }
    }
}

/// A turn was refused that was to do this: it is skipped, or it stopped the command.
pub fn take_back(identity: Identity, stops: bool, choice: Choice, outcome: &mut Outcome)
    ensures { happens choice ≡ true → IsTakenBack identity stops outcome.old outcome.new }
{
    if stops {
        forget(choice, &mut outcome.happened);
        outcome.stopped_at = Some(identity);
    } else {
        skip(identity, choice, &mut outcome.happened);
    }
}

fn forget(choice: Choice, happened: &mut Items<Happened>)
    ensures { happens choice ≡ true
        → (front : List Event) (last : Event)
        → happened.old ≡ front ++ last ∷ []
        → happened.new ≡ front }
{
    if happens(choice) {
        happened.pop();
    }
}

/// In the place of what was told of it before.
fn skip(identity: Identity, choice: Choice, happened: &mut Items<Happened>)
    ensures { happens choice ≡ true
        → (front : List Event) (last : Event)
        → happened.old ≡ front ++ last ∷ []
        → happened.new ≡ front ++ happened_instead identity false }
{
    if happens(choice) {
        put_last(identity, happened);
    }
}

fn put_last(identity: Identity, happened: &mut Items<Happened>)
    ensures { (front : List Event) (last : Event)
        → happened.old ≡ front ++ last ∷ []
        → happened.new ≡ front ++ happened_instead identity false }
{
    let count = happened.len();
    if count > 0 {
        let what = Did::Skipped;
        happened.set(count - 1, Happened { what, identity });
    }
}

fn happens(choice: Choice) -> bool
    ensures { result ≡ happens choice }
{
    match choice {
        Choice::Passes => false,
        Choice::Fills => false,
        Choice::Skips => false,
        Choice::Marks(_) => true,
        Choice::Runs(_, _) => true,
        Choice::Halts(_) => false,
    }
}

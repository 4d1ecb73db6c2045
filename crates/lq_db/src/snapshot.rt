ghost use Rattle.std.specs.Prelude.{◌≡◌, ◌≤◌, Err, IfOk, OnOk, Some};
ghost use Rattle.lq_codec.specs.Tables.{bytes_of};
ghost use Rattle.lq_codec.specs.State.{state_of};
ghost use Rattle.lq_entries.specs.Log.{IsWhole, MayWrite, UnlessFailed, crashes_in, log_of};
ghost use Rattle.lq_journal.specs.State.{dialect_of, disk_of, limit_of};
ghost use Rattle.lq_model.specs.Sound.{IsSound};
ghost use Rattle.lq_model.specs.declared.caller.Room.TheVariants.{Ordinary};
ghost use Rattle.lq_outside.specs.Forms.{Rose};
ghost use Rattle.lq_store.specs.Calls.{stated};
ghost use Rattle.lq_store.specs.Journal.{LeavesFront, size_of_all};

use lq_base::NoMemory;
use lq_entries::append_one;
use lq_frames::{Encoded, EncodedState};
use lq_journal::{AppendFault, Journal};
use lq_model::{Room, StoreFault};
use lq_outside::Disk;
use lq_store::{Executor, States};
use std::alloc::Global;

// The entry of the state that an engine holds.
fn encode<E: Executor, W: States<Engine = E>>(
    alloc: Global,
    engine: &E,
    states: &W,
) -> Result<EncodedState, NoMemory>
    requires { IsSound (E.held engine.now).dialect (E.held engine.now).now }
    ensures bytes { IfOk result (λ state. state ≡ bytes_of (E.held engine.now).now) }
    ensures reads { OnOk result
        (state_of (E.held engine.now).dialect (bytes_of (E.held engine.now).now)
        ≡ Some (E.held engine.now).now) }
{
    match states.write(alloc, engine) {
        Ok(bytes) => EncodedState::new(alloc, &bytes),
        Err(fault) => Err(fault),
    }
}

/// Adds the entry of the state that an engine holds, and answers its size.
pub fn append_state<D: Disk, E: Executor, W: States<Engine = E>>(
    alloc: Global,
    to: &mut Journal<D>,
    engine: &E,
    states: &W,
) -> Result<u64, StoreFault>
    requires whole { IsWhole (D.told (disk_of to.old)) (D.crashes (disk_of to.old)) to.old }
    requires sound { IsSound (E.held engine.now).dialect (E.held engine.now).now }
    ensures size { IfOk result (λ size. size ≡ size_of_all (stated (E.held engine.now).now)) }
    ensures reads { OnOk result
        (state_of (E.held engine.now).dialect (bytes_of (E.held engine.now).now)
        ≡ Some (E.held engine.now).now) }
    ensures does { MayWrite Ordinary (stated (E.held engine.now).now)
        (log_of (D.told (disk_of to.old)) to.old) result (log_of (D.told (disk_of to.new)) to.new) }
    ensures whole { UnlessFailed result
        (IsWhole (D.told (disk_of to.new)) (D.crashes (disk_of to.new)) to.new) }
    ensures crash { LeavesFront (log_of (D.told (disk_of to.old)) to.old).entries
        (stated (E.held engine.now).now)
        (crashes_in (dialect_of to.old) (limit_of to.old) (D.crashes (disk_of to.old)))
        (crashes_in (dialect_of to.new) (limit_of to.new) (D.crashes (disk_of to.new))) }
    ensures later { D.faults (disk_of to.old) ≤ D.faults (disk_of to.new) }
    ensures rose { result ≡ Err StoreFault.Disk
        → Rose (D.faults (disk_of to.old)) (D.faults (disk_of to.new)) }
    // Where memory is wanting nothing was called; else there was a state to write.
    ensures kept { result ≡ Err StoreFault.OutOfMemory → to.new ≡ to.old }
    ensures made { (result ≡ Err StoreFault.OutOfMemory → ⊥)
        → state_of (E.held engine.now).dialect (bytes_of (E.held engine.now).now)
        ≡ Some (E.held engine.now).now }
{
    match encode(alloc, engine, states) {
        Err(NoMemory) => Err(StoreFault::OutOfMemory),
        Ok(state) => match append_one(to, &state, Room::Ordinary) {
            Ok(()) => Ok(state.size()),
            Err(AppendFault::Disk) => Err(StoreFault::Disk),
            Err(AppendFault::Full { used, next }) => Err(StoreFault::Full { used, next }),
        },
    }
}

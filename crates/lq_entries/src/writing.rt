ghost use Rattle.std.specs.Prelude.{◌≡◌, ◌+◌, ◌≤◌, [], ◌∷◌, ◌++◌, Err, IfSome, false, nat_lt};
ghost use Rattle.lq_entries.specs.Log.{IsWhole, MayAppend, MayWrite, UnlessDisk, UnlessFailed, as_entry, crashes_in, entries_of, log_of};
ghost use Rattle.lq_model.specs.declared.caller.Room.TheVariants.{Ordinary};
ghost use Rattle.lq_journal.specs.State.{dialect_of, disk_of, limit_of, used_of};
ghost use Rattle.lq_outside.specs.Forms.{Rose};
ghost use Rattle.lq_store.specs.Journal.{end_of, is_full, of_texts, size_of_all, LeavesFront};
ghost use Rattle.lq_store.specs.Journal.Entry.{Texts};

use lq_frames::{Encoded, EncodedEntry};
use lq_journal::{AppendFault, Journal};
use lq_model::{Room, StoreFault};
use lq_outside::Disk;

/// Adds an entry, of texts or a state, behind the header where there was none yet.
pub fn append_one<D: Disk, B: Encoded>(
    to: &mut Journal<D>,
    entry: &B,
    room: Room,
) -> Result<(), AppendFault>
    requires whole { IsWhole (D.told (disk_of to.old)) (D.crashes (disk_of to.old)) to.old }
    ensures does { MayAppend room (as_entry (B.says entry.now) ∷ [])
        (log_of (D.told (disk_of to.old)) to.old) result
        (log_of (D.told (disk_of to.new)) to.new) }
    ensures whole { UnlessDisk result
        (IsWhole (D.told (disk_of to.new)) (D.crashes (disk_of to.new)) to.new) }
    ensures crash { LeavesFront (log_of (D.told (disk_of to.old)) to.old).entries
        (as_entry (B.says entry.now) ∷ [])
        (crashes_in (dialect_of to.old) (limit_of to.old) (D.crashes (disk_of to.old)))
        (crashes_in (dialect_of to.new) (limit_of to.new) (D.crashes (disk_of to.new))) }
    ensures later { D.faults (disk_of to.old) ≤ D.faults (disk_of to.new) }
    ensures rose { result ≡ Err AppendFault.Disk
        → Rose (D.faults (disk_of to.old)) (D.faults (disk_of to.new)) }
{
    match to.prepare() {
        Err(_) => Err(AppendFault::Disk),
        Ok(()) => match to.append(entry, room) {
            Ok(()) => Ok(()),
            Err(AppendFault::Disk) => Err(AppendFault::Disk),
            Err(AppendFault::Full { used, next }) => Err(AppendFault::Full { used, next }),
        },
    }
}

/// Adds the entry of a transaction, where it has texts.
pub fn append_open<D: Disk>(
    to: &mut Journal<D>,
    entry: &Option<EncodedEntry>,
    room: Room,
) -> Result<(), AppendFault>
    requires whole { IsWhole (D.told (disk_of to.old)) (D.crashes (disk_of to.old)) to.old }
    ensures does { MayAppend room (entries_of entry.now) (log_of (D.told (disk_of to.old)) to.old)
        result (log_of (D.told (disk_of to.new)) to.new) }
    ensures whole { UnlessDisk result
        (IsWhole (D.told (disk_of to.new)) (D.crashes (disk_of to.new)) to.new) }
    ensures crash { LeavesFront (log_of (D.told (disk_of to.old)) to.old).entries
        (entries_of entry.now)
        (crashes_in (dialect_of to.old) (limit_of to.old) (D.crashes (disk_of to.old)))
        (crashes_in (dialect_of to.new) (limit_of to.new) (D.crashes (disk_of to.new))) }
    ensures later { D.faults (disk_of to.old) ≤ D.faults (disk_of to.new) }
    ensures rose { result ≡ Err AppendFault.Disk
        → Rose (D.faults (disk_of to.old)) (D.faults (disk_of to.new)) }
{
    match entry {
        None => Ok(()),
        Some(entry) => append_one(to, entry, room),
    }
}

// What the two take of a journal together.
#[tactic(auto, using(crate::proofs::Logs::texts_size))]
fn size_of_both(first: &Option<EncodedEntry>, second: &EncodedEntry) -> Option<u64>
    ensures { IfSome result (λ size. size
        ≡ size_of_all (entries_of first.now ++ Texts second.now ∷ [])) }
{
    match first {
        None => Some(second.size()),
        Some(first) => first.size().checked_add(second.size()),
    }
}

fn end_of(room: Room, limit: u64) -> u64
    ensures { result ≡ end_of room limit }
{
    match room {
        Room::Ordinary => limit.saturating_sub(4096),
        Room::Release => limit,
    }
}

// Whether so many bytes more go past the end.
fn is_past(room: Room, limit: u64, used: u64, next: u64) -> bool
    ensures { result ≡ nat_lt (end_of room limit) (used + next) }
{
    let end = end_of(room, limit);
    end < used || end - used < next
}

/// Adds the entry of a transaction, where it has texts, and then another; or none of them, where there
/// is no room for both.
pub fn append_both<D: Disk>(
    to: &mut Journal<D>,
    first: &Option<EncodedEntry>,
    second: &EncodedEntry,
) -> Result<(), StoreFault>
    requires whole { IsWhole (D.told (disk_of to.old)) (D.crashes (disk_of to.old)) to.old }
    ensures does { MayWrite Ordinary (entries_of first.now ++ Texts second.now ∷ [])
        (log_of (D.told (disk_of to.old)) to.old) result (log_of (D.told (disk_of to.new)) to.new) }
    ensures whole { UnlessFailed result
        (IsWhole (D.told (disk_of to.new)) (D.crashes (disk_of to.new)) to.new) }
    ensures crash { LeavesFront (log_of (D.told (disk_of to.old)) to.old).entries
        (entries_of first.now ++ Texts second.now ∷ [])
        (crashes_in (dialect_of to.old) (limit_of to.old) (D.crashes (disk_of to.old)))
        (crashes_in (dialect_of to.new) (limit_of to.new) (D.crashes (disk_of to.new))) }
    ensures later { D.faults (disk_of to.old) ≤ D.faults (disk_of to.new) }
    ensures rose { result ≡ Err StoreFault.Disk
        → Rose (D.faults (disk_of to.old)) (D.faults (disk_of to.new)) }
{
    let Some(next) = size_of_both(first, second) else {
        return Err(StoreFault::OutOfMemory);
    };
    let used = to.used();
    if is_past(Room::Ordinary, to.limit(), used, next) {
        return Err(StoreFault::Full { used, next });
    }
    match append_open(to, first, Room::Ordinary) {
        Err(AppendFault::Disk) => Err(StoreFault::Disk),
        Err(AppendFault::Full { used, next }) => Err(StoreFault::Full { used, next }),
        Ok(()) => match append_one(to, second, Room::Ordinary) {
            Ok(()) => Ok(()),
            Err(AppendFault::Disk) => Err(StoreFault::Disk),
            Err(AppendFault::Full { used, next }) => Err(StoreFault::Full { used, next }),
        },
    }
}

fn sum(a: u64, b: u64) -> Option<u64>
    ensures { IfSome result (λ sum. sum ≡ a + b) }
{
    a.checked_add(b)
}

/// What the entries take of a journal; nothing where that is no number of 64 bits.
#[tactic(auto, using(crate::proofs::Logs::texts_size))]
pub fn size_of_all(entries: &[EncodedEntry]) -> Option<u64>
    ensures { IfSome result (λ size. size ≡ size_of_all (of_texts entries.now)) }
{
    let mut size: u64 = 0;
    for entry in entries {
        let Some(more) = sum(size, entry.size()) else {
            return None;
        };
        size = more;
    }
    Some(size)
}

// Whether entries that take so many bytes go past the end; where there are none they do not.
fn lacks_room(room: Room, limit: u64, used: u64, entries: &[EncodedEntry], size: u64) -> bool
    requires { size ≡ size_of_all (of_texts entries.now) }
    ensures { result ≡ is_full (end_of room limit) used (of_texts entries.now) }
{
    match entries {
        [] => false,
        _ => is_past(room, limit, used, size),
    }
}

// Adds entries for which there is room.
fn append_each<D: Disk>(
    to: &mut Journal<D>,
    entries: &[EncodedEntry],
    room: Room,
) -> Result<(), AppendFault>
    requires whole { IsWhole (D.told (disk_of to.old)) (D.crashes (disk_of to.old)) to.old }
    requires room { is_full (end_of room (limit_of to.old)) (used_of to.old) (of_texts entries.now)
        ≡ false }
    ensures does { MayAppend room (of_texts entries.now) (log_of (D.told (disk_of to.old)) to.old)
        result
        (log_of (D.told (disk_of to.new)) to.new) }
    ensures whole { UnlessDisk result
        (IsWhole (D.told (disk_of to.new)) (D.crashes (disk_of to.new)) to.new) }
    ensures crash { LeavesFront (log_of (D.told (disk_of to.old)) to.old).entries
        (of_texts entries.now)
        (crashes_in (dialect_of to.old) (limit_of to.old) (D.crashes (disk_of to.old)))
        (crashes_in (dialect_of to.new) (limit_of to.new) (D.crashes (disk_of to.new))) }
    ensures later { D.faults (disk_of to.old) ≤ D.faults (disk_of to.new) }
    ensures rose { result ≡ Err AppendFault.Disk
        → Rose (D.faults (disk_of to.old)) (D.faults (disk_of to.new)) }
{
    for entry in entries {
        match append_one(to, entry, room) {
            Ok(()) => {}
            Err(AppendFault::Disk) => return Err(AppendFault::Disk),
            Err(AppendFault::Full { .. }) => unreachable!(),
        }
    }
    Ok(())
}

/// Adds the entries, which take so many bytes, or none of them where there is no room for all.
pub fn append_all<D: Disk>(
    to: &mut Journal<D>,
    entries: &[EncodedEntry],
    size: u64,
    room: Room,
) -> Result<(), AppendFault>
    requires whole { IsWhole (D.told (disk_of to.old)) (D.crashes (disk_of to.old)) to.old }
    requires size { size ≡ size_of_all (of_texts entries.now) }
    ensures does { MayAppend room (of_texts entries.now) (log_of (D.told (disk_of to.old)) to.old)
        result
        (log_of (D.told (disk_of to.new)) to.new) }
    ensures whole { UnlessDisk result
        (IsWhole (D.told (disk_of to.new)) (D.crashes (disk_of to.new)) to.new) }
    ensures crash { LeavesFront (log_of (D.told (disk_of to.old)) to.old).entries
        (of_texts entries.now)
        (crashes_in (dialect_of to.old) (limit_of to.old) (D.crashes (disk_of to.old)))
        (crashes_in (dialect_of to.new) (limit_of to.new) (D.crashes (disk_of to.new))) }
    ensures later { D.faults (disk_of to.old) ≤ D.faults (disk_of to.new) }
    ensures rose { result ≡ Err AppendFault.Disk
        → Rose (D.faults (disk_of to.old)) (D.faults (disk_of to.new)) }
{
    let used = to.used();
    if lacks_room(room, to.limit(), used, entries, size) {
        return Err(AppendFault::Full { used, next: size });
    }
    append_each(to, entries, room)
}

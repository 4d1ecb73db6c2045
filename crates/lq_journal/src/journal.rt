ghost use Rattle.std.specs.Prelude.{◌≡◌, ◌+◌, ◌<◌, ◌≤◌, ◌↔◌, [], ◌∷◌, ◌++◌, drop, false, IfSome, IfOk, IfErr, IsErrAnd, IsTrue, OnOk, OnErr, MatchResult, Ok, Err, length};
ghost use Rattle.std.specs.Option.{option_map};
ghost use Rattle.lq_outside.specs.Forms.{CountsFault};
ghost use Rattle.lq_outside.specs.Crash.{Settled, LeavesOnly};
ghost use Rattle.lq_frames.specs.Body.{size_of, header, has_state, journal_of, with_last, IsSameOrMore, StandsForSame, StandsForSameOrMore};
ghost use Rattle.lq_journal.specs.Reading.{IsLengthFault, IsLoadFault, IsSizeFault, FoundOn, IsRead, HasSynced, HasSyncedBefore};
ghost use Rattle.lq_journal.specs.State.{end_of, IsAppendFault, IsFull};
ghost use Rattle.lq_journal.specs.declared.fault.AppendFault.TheVariants.{Full};

use crate::fault::{AppendFault, LoadFault};
use crate::reading::{self, Found};
use lq_base::{Dialect, Items};
use lq_frames::{Encoded, Entry};
use lq_gate::{Ending, write_entry, write_synced};
use lq_model::Room;
use lq_outside::{Disk, DiskFailed, LoadRefused};
use std::alloc::Global;

/// The journal on a disk, which it owns.
///
/// The file begins with 16 bytes that name the dialect. Then comes a gate, one byte, which is open
/// where it is 1. Behind an open gate stands an entry and then the next gate; a closed gate ends the
/// journal. An entry is written behind the closed gate that ends the journal, and that gate is opened
/// when the entry is on the disk: so a stop at any moment leaves the entry whole or not at all.
#[derive(Drop)]
pub struct Journal<D: Disk> {
    disk: D,
    dialect: Dialect,
    limit: u64,
    used: u64,
    /// The file has a header and a gate.
    prepared: bool,
}

// The bytes of the file, after a sync.
fn contents<D: Disk>(alloc: Global, disk: &mut D, limit: u64) -> Result<Vec<u8>, LoadFault>
    ensures told { D.told disk.new ≡ D.told disk.old }
    ensures bytes { IfOk result
        (λ bytes. IfSome (D.told disk.old) (λ before. before ≡ bytes.items)) }
    ensures within { IfOk result (λ bytes. length bytes.items ≤ limit) }
    ensures settled { OnOk result (Settled (D.told disk.old) (D.crashes disk.new)) }
    ensures any_moment { LeavesOnly (D.crashes disk.old) (D.crashes disk.new)
        (D.crashes disk.old).leaves }
    ensures later { D.faults disk.old ≤ D.faults disk.new }
    ensures stays { OnOk result (D.faults disk.new ≡ D.faults disk.old) }
    ensures fault { IfErr result (λ fault.
        IsSizeFault limit (D.told disk.old) (D.faults disk.old) (D.faults disk.new) fault) }
    ensures too_long { IfSome (D.told disk.old) (λ before.
        limit < length before
        → IsErrAnd result (IsLengthFault limit (D.faults disk.old) (D.faults disk.new))) }
    ensures synced { MatchResult result
        (λ bytes. HasSynced (D.crashes disk.old) (D.crashes disk.new))
        (λ fault. HasSyncedBefore fault (D.crashes disk.old) (D.crashes disk.new)) }
{
    disk.sync()?;
    let size = disk.size()?;
    if size > limit {
        return Err(LoadFault::Damaged { at: limit });
    }
    let mut bytes = vec![in alloc; 0u8; size as usize]?;
    disk.read(0, &mut bytes)?;
    Ok(bytes)
}

// What stands on the disk.
fn look<D: Disk>(
    alloc: Global,
    disk: &mut D,
    dialect: Dialect,
    limit: u64,
) -> Result<Found, LoadFault>
    ensures told { D.told disk.new ≡ D.told disk.old }
    ensures found { IfOk result (λ found. FoundOn dialect limit (D.told disk.old) found) }
    ensures settled { OnOk result (Settled (D.told disk.old) (D.crashes disk.new)) }
    ensures any_moment { LeavesOnly (D.crashes disk.old) (D.crashes disk.new)
        (D.crashes disk.old).leaves }
    ensures later { D.faults disk.old ≤ D.faults disk.new }
    ensures stays { OnOk result (D.faults disk.new ≡ D.faults disk.old) }
    ensures fault { IfErr result (λ fault.
        IsLoadFault dialect limit (D.told disk.old) (D.faults disk.old) (D.faults disk.new) fault) }
    ensures too_long { IfSome (D.told disk.old) (λ before.
        limit < length before
        → IsErrAnd result (IsLengthFault limit (D.faults disk.old) (D.faults disk.new))) }
    ensures synced { MatchResult result
        (λ found. HasSynced (D.crashes disk.old) (D.crashes disk.new))
        (λ fault. HasSyncedBefore fault (D.crashes disk.old) (D.crashes disk.new)) }
{
    match contents(alloc, disk, limit) {
        Ok(bytes) => reading::read(alloc, dialect, limit, &bytes),
        Err(fault) => Err(fault),
    }
}

// The header and a closed gate.
fn fresh(dialect: Dialect) -> &'static [u8]
    ensures { result.now ≡ header dialect ++ 0 ∷ [] }
{
    match dialect {
        Dialect::Postgresql => b"LQJOURNAL1 PGSQL\x00",
        Dialect::Mysql => b"LQJOURNAL1 MYSQL\x00",
    }
}

fn end_of(room: Room, limit: u64) -> u64
    ensures { result ≡ end_of room limit }
{
    match room {
        Room::Ordinary => limit.saturating_sub(4096),
        Room::Release => limit,
    }
}

// Whether the two together go past the end.
fn exceeds(used: u64, next: u64, end: u64) -> bool
    ensures { IsTrue result ↔ (end < used + next) }
{
    end < used || end - used < next
}

impl<D: Disk> Journal<D> {
    ghost use Rattle.lq_journal.specs.State.{disk_of, dialect_of, limit_of, used_of, IsLoaded, IsReady, SameOpening};

    /// Opens the journal on a disk and gives its entries from the last state on, or all where there is
    /// none, or the place of damage. It begins with a sync. A refusal hands the disk back, and changes
    /// no byte.
    ///
    /// The limit is the greatest size of the file.
    pub fn load(
        alloc: Global,
        mut disk: D,
        dialect: Dialect,
        limit: u64,
    ) -> Result<(Journal<D>, Items<Entry>), LoadRefused<D, LoadFault>>
        requires limit_least { 8192 ≤ limit }
        requires limit_most { limit ≤ 268435456 }
        ensures read { IfOk result (λ loaded.
            IfSome (D.told disk)
            (λ bytes. IsRead dialect limit bytes loaded.1 (used_of loaded.0))) }

        // Behind the first of them stand texts alone.
        ensures texts_behind { IfOk result (λ loaded. has_state (drop 1 loaded.1) ≡ false) }
        ensures dialect { IfOk result (λ loaded. dialect_of loaded.0 ≡ dialect) }
        ensures limit { IfOk result (λ loaded. limit_of loaded.0 ≡ limit) }
        ensures loaded { IfOk result (λ loaded. IsLoaded (D.told (disk_of loaded.0)) loaded.0) }
        ensures told { MatchResult result (λ loaded. D.told (disk_of loaded.0) ≡ D.told disk)
            (λ refused. D.told refused.disk ≡ D.told disk) }

        // Each fault has its cause.
        ensures fault { IfErr result (λ refused.
            IsLoadFault dialect limit (D.told disk) (D.faults disk) (D.faults refused.disk)
            refused.fault) }
        ensures later { MatchResult result
            (λ loaded. D.faults disk ≤ D.faults (disk_of loaded.0))
            (λ refused. D.faults disk ≤ D.faults refused.disk) }
        ensures stays { IfOk result (λ loaded. D.faults (disk_of loaded.0) ≡ D.faults disk) }

        // A file that is longer than the limit is not taken into memory.
        ensures too_long { IfSome (D.told disk) (λ bytes.
            limit < length bytes
            → IsErrAnd result (λ refused.
            IsLengthFault limit (D.faults disk) (D.faults refused.disk) refused.fault)) }

        // It begins with a sync.
        ensures synced { MatchResult result
            (λ loaded. HasSynced (D.crashes disk) (D.crashes (disk_of loaded.0)))
            (λ refused. HasSyncedBefore refused.fault (D.crashes disk) (D.crashes refused.disk)) }

        // After it a crash leaves what a read gives, and at each moment of it what one before it might have left.
        ensures settled { IfOk result
            (λ loaded. Settled (D.told (disk_of loaded.0)) (D.crashes (disk_of loaded.0))) }
        ensures any_moment { MatchResult result (λ loaded.
            LeavesOnly (D.crashes disk) (D.crashes (disk_of loaded.0)) (D.crashes disk).leaves)
            (λ refused.
            LeavesOnly (D.crashes disk) (D.crashes refused.disk) (D.crashes disk).leaves) }
    {
        match look(alloc, &mut disk, dialect, limit) {
            Ok(found) => {
                let Found {
                    entries,
                    used,
                    prepared,
                } = found;
                let journal = Journal {
                    disk,
                    dialect,
                    limit,
                    used,
                    prepared,
                };
                Ok((journal, entries))
            }
            Err(fault) => Err(LoadRefused { disk, fault }),
        }
    }

    /// Writes the header and a closed gate, where the file has none yet. The entries stay what they
    /// are, also where it fails.
    pub fn prepare(&mut self) -> Result<(), DiskFailed>
        requires loaded { IsLoaded (D.told (disk_of self.old)) self.old }
        ensures ready { OnOk result (IsReady (D.told (disk_of self.new)) self.new) }
        ensures opening { SameOpening self.old self.new }
        ensures used { used_of self.new ≡ used_of self.old }
        ensures same { option_map (journal_of (dialect_of self.old) (limit_of self.old))
            (D.told (disk_of self.new))
            ≡ option_map (journal_of (dialect_of self.old) (limit_of self.old))
            (D.told (disk_of self.old)) }

        // Where all is on the disk, a crash at any moment of the call leaves the entries, and after it all is.
        ensures any_moment { Settled (D.told (disk_of self.old)) (D.crashes (disk_of self.old))
            → IfSome (D.told (disk_of self.old)) (λ before.
            LeavesOnly (D.crashes (disk_of self.old)) (D.crashes (disk_of self.new))
            (StandsForSame (dialect_of self.old) (limit_of self.old)
            (journal_of (dialect_of self.old) (limit_of self.old) before))) }
        ensures durable { OnOk result
            (Settled (D.told (disk_of self.old)) (D.crashes (disk_of self.old))
            → Settled (D.told (disk_of self.new)) (D.crashes (disk_of self.new))) }
        ensures faults { CountsFault result (D.faults (disk_of self.old))
            (D.faults (disk_of self.new)) }
    {
        if self.prepared {
            return Ok(());
        }
        write_synced(&mut self.disk, 0, fresh(self.dialect))?;
        self.prepared = true;
        Ok(())
    }

    // Writes an entry for which there is room behind the closed gate, and then opens the gate.
    fn write_entry<B: Encoded>(&mut self, entry: &B) -> Result<(), DiskFailed>
        requires ready { IsReady (D.told (disk_of self.old)) self.old }
        requires fits { used_of self.old + size_of (B.says entry.now) ≤ limit_of self.old }
        ensures ready { OnOk result (IsReady (D.told (disk_of self.new)) self.new) }
        ensures opening { SameOpening self.old self.new }
        ensures used { OnOk result (used_of self.new
            ≡ used_of self.old + size_of (B.says entry.now)) }
        ensures used_stays { OnErr result (used_of self.new ≡ used_of self.old) }
        ensures added { OnOk result (option_map
            (journal_of (dialect_of self.old) (limit_of self.old)) (D.told (disk_of self.new))
            ≡ option_map (with_last (used_of self.old) (B.says entry.now))
            (option_map (journal_of (dialect_of self.old) (limit_of self.old))
            (D.told (disk_of self.old)))) }
        ensures failed { OnErr result (IsSameOrMore (used_of self.old) (B.says entry.now)
            (option_map (journal_of (dialect_of self.old) (limit_of self.old))
            (D.told (disk_of self.old)))
            (option_map (journal_of (dialect_of self.old) (limit_of self.old))
            (D.told (disk_of self.new)))) }
        ensures durable { OnOk result
            (Settled (D.told (disk_of self.new)) (D.crashes (disk_of self.new))) }
        ensures any_moment { Settled (D.told (disk_of self.old)) (D.crashes (disk_of self.old))
            → IfSome (D.told (disk_of self.old)) (λ before.
            LeavesOnly (D.crashes (disk_of self.old)) (D.crashes (disk_of self.new))
            (StandsForSameOrMore (dialect_of self.old) (limit_of self.old) (used_of self.old)
            (B.says entry.now) (journal_of (dialect_of self.old) (limit_of self.old) before))) }
        ensures faults { CountsFault result (D.faults (disk_of self.old))
            (D.faults (disk_of self.new)) }
    {
        let ending = Ending {
            dialect: self.dialect,
            limit: self.limit,
            used: self.used,
        };
        write_entry(&mut self.disk, ending, entry)?;
        self.used += entry.size();
        Ok(())
    }

    /// Adds an entry, of texts or a state. It takes no memory.
    pub fn append<B: Encoded>(&mut self, entry: &B, room: Room) -> Result<(), AppendFault>
        requires ready { IsReady (D.told (disk_of self.old)) self.old }
        ensures ready { OnOk result (IsReady (D.told (disk_of self.new)) self.new) }
        ensures opening { SameOpening self.old self.new }
        ensures used { OnOk result (used_of self.new
            ≡ used_of self.old + size_of (B.says entry.now)) }
        ensures used_stays { OnErr result (used_of self.new ≡ used_of self.old) }
        ensures added { OnOk result (option_map
            (journal_of (dialect_of self.old) (limit_of self.old)) (D.told (disk_of self.new))
            ≡ option_map (with_last (used_of self.old) (B.says entry.now))
            (option_map (journal_of (dialect_of self.old) (limit_of self.old))
            (D.told (disk_of self.old)))) }

        // It is full exactly where the entry goes past the end that the room sets, and then nothing is changed.
        ensures full { (end_of room (limit_of self.old) < used_of self.old + size_of
            (B.says entry.now)) ↔
            (result ≡ Err (Full (used_of self.old) (size_of (B.says entry.now)))) }
        ensures unchanged { IfErr result (λ fault. IsFull fault → self.new ≡ self.old) }
        ensures fault { IfErr result (λ fault.
            IsAppendFault (used_of self.old) (size_of (B.says entry.now))
            (D.faults (disk_of self.old))
            (D.faults (disk_of self.new)) fault) }
        ensures later { D.faults (disk_of self.old) ≤ D.faults (disk_of self.new) }
        ensures stays { OnOk result (D.faults (disk_of self.new) ≡ D.faults (disk_of self.old)) }

        // One that fails leaves the entries before it, with the new one or without.
        ensures failed { OnErr result (IsSameOrMore (used_of self.old) (B.says entry.now)
            (option_map (journal_of (dialect_of self.old) (limit_of self.old))
            (D.told (disk_of self.old)))
            (option_map (journal_of (dialect_of self.old) (limit_of self.old))
            (D.told (disk_of self.new)))) }

        // After it a crash leaves what a read gives. Where that was so before, a crash at any moment of the
        // call leaves the entries before it, with the new one or without.
        ensures durable { OnOk result
            (Settled (D.told (disk_of self.new)) (D.crashes (disk_of self.new))) }
        ensures any_moment { Settled (D.told (disk_of self.old)) (D.crashes (disk_of self.old))
            → IfSome (D.told (disk_of self.old)) (λ before.
            LeavesOnly (D.crashes (disk_of self.old)) (D.crashes (disk_of self.new))
            (StandsForSameOrMore (dialect_of self.old) (limit_of self.old) (used_of self.old)
            (B.says entry.now) (journal_of (dialect_of self.old) (limit_of self.old) before))) }
    {
        let next = entry.size();
        if exceeds(self.used, next, end_of(room, self.limit)) {
            return Err(AppendFault::Full {
                used: self.used,
                next,
            });
        }
        match self.write_entry(entry) {
            Ok(()) => Ok(()),
            Err(_) => Err(AppendFault::Disk),
        }
    }

    /// The place after the closed gate that ends the journal, where the next entry is written.
    pub fn used(&self) -> u64
        ensures { result ≡ used_of self.now }
    {
        self.used
    }

    /// The dialect of the journal's texts.
    pub fn dialect(&self) -> Dialect
        ensures { result ≡ dialect_of self.now }
    {
        self.dialect
    }

    /// The greatest size of the file.
    pub fn limit(&self) -> u64
        ensures { result ≡ limit_of self.now }
    {
        self.limit
    }

    /// The disk as it is.
    pub fn into_disk(self) -> D
        ensures { result ≡ disk_of self }
    {
        self.disk
    }
}

ghost use Rattle.std.specs.Option.{option_copied};
ghost use Rattle.std.specs.Prelude.{◌≡◌, ◌≤◌, IfOk, IfErr, IfSome, IsTrue, MatchResult, None, Ok, false, true};
ghost use Rattle.lq_db.specs.Db.{lives, last_text};
ghost use Rattle.lq_db.specs.Load.{IsDbFault};
ghost use Rattle.lq_entries.specs.Load.{catalogue_of, is_clean};
ghost use Rattle.lq_outside.specs.Crash.{LeavesOnly};
ghost use Rattle.lq_store.specs.Calls.{CountsDisk, MaySnapshot};
ghost use Rattle.lq_store.specs.Journal.{LeavesFront};
ghost use Rattle.lq_store.specs.Executor.{kept};

use crate::alone::prepare;
use crate::itself::run_itself;
use crate::last_texts::{LastTexts, last_of};
use crate::running::Ended;
use crate::snapshot::append_state;
use crate::taking::{commits_itself, take};
use lq_base::{Dialect, Lock, Text};
use lq_entries::append_all;
use lq_journal::{AppendFault, Journal, LoadFault};
use lq_loading::{Raised, raise};
use lq_model::{By, ByText, ParseFault, Room, SqlText, StoreFault};
use lq_outside::{Disk, LoadRefused};
use lq_session::{Open, abort, commit, look};
use lq_store::{Executor, States, Store};
use std::alloc::Global;

/// A database in a journal, which it loads, and whose work it keeps in an engine.
#[derive(Drop)]
pub struct Db<D: Disk, P: SqlText + Drop, E: Executor + Drop> {
    alloc: Global,
    dialect: Dialect,
    journal: Journal<D>,
    sql: P,
    engine: E,
    /// The committed lock.
    lock: Lock,
    /// The last text of the journal behind its last state, and of the open transaction.
    texts: LastTexts,
    begun: Option<Open>,
    /// No call has met a disk fault.
    live: bool,
}

impl<D: Disk, P: SqlText + Drop, E: Executor + Drop> Db<D, P, E> {
    ghost use Rattle.lq_db.specs.Db.{HasState, IsDb, IsNew, IsValid, crashes, disk_in, engine_in, is_unwritten, snapshot_entries, state};

    /// Opens the database in a journal, from its last state on. A refusal hands the disk back, and
    /// changes no byte.
    ///
    /// The limit is the greatest size of the journal.
    pub fn load<W: States<Engine = E>>(
        alloc: Global,
        disk: D,
        dialect: Dialect,
        sql: P,
        limit: u64,
        states: &W,
    ) -> Result<Db<D, P, E>, LoadRefused<D, LoadFault>>
        requires limit_least { 8192 ≤ limit }
        requires limit_most { limit ≤ 268435456 }
        requires sql { P.dialect ≡ dialect }
        ensures valid { IfOk result (λ db.
            IsDb P.dialect (D.told (disk_in db)) (D.crashes (disk_in db)) (E.held (engine_in db))
            db) }
        ensures new { IfOk result (λ db. IsNew dialect limit db) }
        ensures catalogue { IfOk result (λ db.
            IfSome (D.told disk)
            (λ bytes. catalogue_of dialect limit bytes ≡ Ok (kept (E.held (engine_in db))))) }
        ensures clean { IfOk result (λ db. is_clean dialect (kept (E.held (engine_in db)))
            ≡ true) }
        ensures told { MatchResult result (λ db. D.told (disk_in db) ≡ D.told disk)
            (λ refused. D.told refused.disk ≡ D.told disk) }

        // Each fault has its cause.
        ensures fault { IfErr result (λ refused.
            IsDbFault dialect limit (D.told disk) (D.faults disk) (D.faults refused.disk)
            refused.fault) }
        ensures later { MatchResult result (λ db. D.faults disk ≤ D.faults (disk_in db))
            (λ refused. D.faults disk ≤ D.faults refused.disk) }

        // At each moment of it a crash leaves what one before it might have left.
        ensures any_moment { MatchResult result
            (λ db. LeavesOnly (D.crashes disk) (D.crashes (disk_in db)) (D.crashes disk).leaves)
            (λ refused.
            LeavesOnly (D.crashes disk) (D.crashes refused.disk) (D.crashes disk).leaves) }
    {
        match Journal::load(alloc, disk, dialect, limit) {
            Err(refused) => Err(refused),
            Ok((journal, entries)) => {
                let used = journal.used();
                match raise(alloc, dialect, &sql, states, entries.as_slice(), used) {
                    Err(fault) => Err(LoadRefused {
                        disk: journal.into_disk(),
                        fault,
                    }),
                    Ok(raised) => {
                        let Raised { engine, lock } = raised;
                        let texts = LastTexts {
                            in_journal: last_of(entries),
                            waiting: None,
                        };
                        Ok(Db {
                            alloc,
                            dialect,
                            journal,
                            sql,
                            engine,
                            lock,
                            texts,
                            begun: None,
                            live: true,
                        })
                    }
                }
            }
        }
    }

    /// The last text of the journal: nothing where no entry of texts stands behind the last state.
    pub fn last_text(&self) -> Option<&Text>
        requires valid { IsDb P.dialect (D.told (disk_in self.now)) (D.crashes (disk_in self.now))
            (E.held (engine_in self.now)) self.now }
        ensures { IfSome
            (state (D.told (disk_in self.now)) (E.held (engine_in self.now)) self.now).entries
            (λ there. option_copied result ≡ last_text there) }
    {
        self.texts.in_journal.as_ref()
    }

    /// Writes the state of the database, where a transaction stands behind the last one, and answers
    /// the size of its entry; otherwise it writes nothing, and answers 0.
    pub fn snapshot<W: States<Engine = E>>(&mut self, states: &W) -> Result<u64, StoreFault>
        requires valid { IsValid P.dialect (D.told (disk_in self.old))
            (D.crashes (disk_in self.old))
            (E.held (engine_in self.old)) self.old }
        requires live { IsTrue
            (state (D.told (disk_in self.old)) (E.held (engine_in self.old)) self.old).live }
        requires closed { (state (D.told (disk_in self.old)) (E.held (engine_in self.old))
            self.old).begun
            ≡ None }
        ensures does { MaySnapshot
            (state (D.told (disk_in self.old)) (E.held (engine_in self.old)) self.old) result
            (state (D.told (disk_in self.new)) (E.held (engine_in self.new)) self.new) }
        ensures valid { IsValid P.dialect (D.told (disk_in self.new)) (D.crashes (disk_in self.new))
            (E.held (engine_in self.new)) self.new }
        ensures crash { LeavesFront
            (state (D.told (disk_in self.old)) (E.held (engine_in self.old)) self.old).entries
            (snapshot_entries
            (state (D.told (disk_in self.old)) (E.held (engine_in self.old)) self.old))
            (crashes (D.crashes (disk_in self.old)) self.old)
            (crashes (D.crashes (disk_in self.new)) self.new) }
        ensures faults { CountsDisk result (D.faults (disk_in self.old))
            (D.faults (disk_in self.new)) }

        // What it may have written is read as what is committed.
        ensures kept { is_unwritten result ≡ true → self.new ≡ self.old }
        ensures reads { is_unwritten result ≡ false
            → HasState
            (state (D.told (disk_in self.old)) (E.held (engine_in self.old)) self.old) }
    {
        if !self.texts.has_text() {
            return Ok(0);
        }
        let done = append_state(self.alloc, &mut self.journal, &self.engine, states);
        self.texts.note_state(done);
        note(&mut self.live, done)
    }

    /// The disk as it is: an open transaction leaves nothing on it but what was committed.
    pub fn into_disk(self) -> D
        ensures { result ≡ disk_in self }
    {
        self.journal.into_disk()
    }
}

// After a disk fault nothing more is called.
fn note(live: &mut bool, done: Result<u64, StoreFault>) -> Result<u64, StoreFault>
    ensures result { result ≡ done }
    ensures live { live.new ≡ lives done live.old }
{
    match done {
        Err(StoreFault::Disk) => {
            *live = false;
            Err(StoreFault::Disk)
        }
        done => done,
    }
}

impl<D: Disk, P: SqlText + Drop, E: Executor + Drop> Store for Db<D, P, E> {
    ghost use Rattle.lq_db.specs.Db.{IsValid, crashes, disk_in, engine_in, state, is_store};

    type View = E;

    ghost state = { λ db. state (D.told (disk_in db)) (E.held (engine_in db)) db };

    ghost faults = { λ db. D.faults (disk_in db) };

    ghost crashes = { λ db. crashes (D.crashes (disk_in db)) db };

    ghost valid = { λ db. IsValid P.dialect (D.told (disk_in db)) (D.crashes (disk_in db)) (E.held (engine_in db)) db };

    fn is_live(&self) -> bool {
        self.live
    }

    fn lock(&self) -> &Lock {
        &self.lock
    }

    fn look(&self, session: u32) -> Result<&E, StoreFault> {
        match look(&self.engine, &self.begun, session) {
            Ok(view) => Ok(view),
            Err(fault) => Err(fault),
        }
    }

    fn begin(&mut self, session: u32) -> Result<(), StoreFault> {
        if let Some(open) = &self.begun {
            return Err(StoreFault::Busy(open.session));
        }
        self.texts.waiting = None;
        self.begun = Some(Open {
            session,
            entry: None,
            lock: None,
        });
        Ok(())
    }

    fn execute(&mut self, _session: u32, by: By, text: &str) -> Result<u64, StoreFault> {
        let statement = match self.sql.parse(self.alloc, text) {
            Ok(statement) => statement,
            Err(ParseFault::NotSql) => return Err(StoreFault::NotSql),
            Err(ParseFault::OutOfMemory) => return Err(StoreFault::OutOfMemory),
        };
        let Ok(copy) = Text::new(self.alloc, text) else {
            return Err(StoreFault::OutOfMemory);
        };
        match &mut self.begun {
            // No call comes here: the session has one open.
            None => Err(StoreFault::OutOfMemory),
            Some(begun) => {
                if commits_itself(self.dialect, &statement) {
                    let done = run_itself(
                        self.alloc,
                        &mut self.journal,
                        &mut self.engine,
                        begun,
                        &mut self.lock,
                        self.dialect,
                        by,
                        text,
                        &statement,
                    );
                    self.texts.note_itself(done, copy);
                    note(&mut self.live, done)
                } else {
                    let done = take(
                        self.alloc,
                        &mut self.engine,
                        begun,
                        self.dialect,
                        by,
                        text,
                        &statement,
                    );
                    self.texts.note_taken(done, copy);
                    done
                }
            }
        }
    }

    fn commit(&mut self, _session: u32) -> Result<(), StoreFault> {
        match self.begun.take() {
            None => unreachable!(),
            Some(mut open) => match commit(
                &mut self.journal,
                &mut self.engine,
                &mut open,
                &mut self.lock,
            ) {
                Ok(()) => {
                    self.texts.commit();
                    Ok(())
                }
                Err(AppendFault::Disk) => {
                    self.live = false;
                    Err(StoreFault::Disk)
                }
                Err(AppendFault::Full { used, next }) => {
                    self.begun = Some(open);
                    Err(StoreFault::Full { used, next })
                }
            },
        }
    }

    fn abort(&mut self, _session: u32) {
        abort(&mut self.engine, &mut self.begun);
    }

    fn alone(&mut self, _session: u32, texts: &[ByText], room: Room) -> Result<(), StoreFault> {
        if let Some(begun) = &self.begun {
            return Err(StoreFault::Busy(begun.session));
        }
        match prepare(self.alloc, &self.sql, &mut self.engine, self.dialect, texts) {
            Err(fault) => {
                self.engine.undo();
                Err(fault)
            }
            Ok(prepared) => match append_all(
                &mut self.journal,
                prepared.entries.as_slice(),
                prepared.size,
                room,
            ) {
                Ok(()) => {
                    self.engine.forget();
                    self.lock = prepared.lock;
                    self.texts.renew(prepared.last);
                    match prepared.ended {
                        Ended::Ran => Ok(()),
                        Ended::Stopped(reason) => Err(StoreFault::Refused(reason)),
                    }
                }
                Err(AppendFault::Disk) => {
                    self.live = false;
                    Err(StoreFault::Disk)
                }
                Err(AppendFault::Full { used, next }) => {
                    self.engine.undo();
                    Err(StoreFault::Full { used, next })
                }
            },
        }
    }

    ghost sound = { λ db valid live. is_store db (valid.lives live) };
}

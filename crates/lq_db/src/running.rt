ghost use Rattle.std.specs.Prelude.{◌≡◌, ◌++◌, ◌∷◌, [], IfSome, OnOk, ◌<◌, length};
ghost use Rattle.lq_db.specs.Alone.{IsClosed, TakesUp, rewound};

use crate::last_texts::LastTexts;
use crate::taking::push_text;
use lq_base::{Items, NoMemory, Reason, Text};
use lq_frames::EncodedEntry;
use lq_store::Executor;
use std::alloc::Global;

/// The texts that have run in a transaction of their own.
#[derive(Drop)]
pub struct Running {
    /// The entries that are complete.
    pub entries: Items<EncodedEntry>,
    /// The texts since then: nothing where there are none.
    pub entry: Option<EncodedEntry>,
    /// How many they are.
    pub runs: u64,
    /// The last text of the complete entries, and of those since then.
    pub texts: LastTexts,
}

/// How such texts end.
#[derive(Clone, Copy, PartialEq, Eq)]
pub enum Ended {
    Ran,
    Stopped(Reason),
}

/// The texts so far are a complete entry.
pub fn close(running: &mut Running) -> Result<(), NoMemory>
    ensures { OnOk result (IsClosed running.old running.new) }
{
    if let Some(entry) = running.entry.take() {
        running.entries.push(entry)?;
    }
    running.runs = 0;
    running.texts.commit();
    Ok(())
}

/// Takes up the text of a statement that ran.
pub fn take_up(
    alloc: Global,
    running: &mut Running,
    itself: bool,
    text: &str,
) -> Result<(), NoMemory>
    requires some { IfSome running.old.entry (λ texts. 0 < length texts) }
    ensures { OnOk result (TakesUp itself text.now running.old running.new) }
{
    let copy = Text::new(alloc, text)?;
    if itself {
        close(running)?;
        let entry = EncodedEntry::new(alloc, text)?;
        running.entries.push(entry)?;
        running.texts.write(copy);
        return Ok(());
    }
    push_text(alloc, &mut running.entry, text)?;
    // No memory holds so many texts.
    let Some(runs) = running.runs.checked_add(1) else {
        return Err(NoMemory);
    };
    running.runs = runs;
    running.texts.add(copy);
    Ok(())
}

/// Takes so many runs back.
pub fn rewind<E: Executor>(engine: &mut E, runs: u64)
    ensures { E.held engine.new ≡ rewound runs (E.held engine.old) }
{
    let mut left = runs;
    while left > 0 {
        engine.undo_last();
        left -= 1;
    }
}

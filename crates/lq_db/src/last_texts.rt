ghost use Rattle.std.specs.Prelude.{◌≡◌, is_some, map};
ghost use Rattle.lq_db.specs.Db.{after_itself, after_state, after_taken, last_text, with_all, with_entry, with_last, with_text};
ghost use Rattle.lq_entries.specs.Log.{unplaced};

use lq_base::{Items, Text};
use lq_frames::{Body, Entry};
use lq_model::StoreFault;

/// The last text of a journal behind its last state, and that of the texts which are not yet in it.
#[derive(Drop)]
pub struct LastTexts {
    /// Nothing where no entry stands behind the last state.
    pub in_journal: Option<Text>,
    /// Nothing where no text waits.
    pub waiting: Option<Text>,
}

impl LastTexts {
    /// A text more waits.
    pub fn add(&mut self, text: Text)
        ensures { self.new ≡ with_text text self.old }
    {
        self.waiting = Some(text);
    }

    /// What waited is in the journal.
    pub fn commit(&mut self)
        ensures { self.new ≡ with_all self.old }
    {
        if let Some(text) = self.waiting.take() {
            self.in_journal = Some(text);
        }
    }

    /// What waited is in the journal, and behind it this text.
    pub fn write(&mut self, text: Text)
        ensures { self.new ≡ with_entry text }
    {
        self.in_journal = Some(text);
        self.waiting = None;
    }

    /// The journal has entries more, of which this is the last text; none where there are none.
    pub fn renew(&mut self, last: Option<Text>)
        ensures { self.new ≡ with_last last self.old }
    {
        if let Some(text) = last {
            self.in_journal = Some(text);
        }
    }

    /// A text was run in an open transaction, and came to this.
    pub fn note_taken(&mut self, done: Result<u64, StoreFault>, text: Text)
        ensures { self.new ≡ after_taken done text self.old }
    {
        if done.is_ok() {
            self.add(text);
        }
    }

    /// Whether a text stands behind the last state.
    pub fn has_text(&self) -> bool
        ensures { result ≡ is_some self.now.in_journal }
    {
        self.in_journal.is_some()
    }

    /// A state was to be written, and it came to this.
    pub fn note_state(&mut self, done: Result<u64, StoreFault>)
        ensures { self.new ≡ after_state done self.old }
    {
        if done.is_ok() {
            self.in_journal = None;
        }
    }

    /// A text that commits by itself was run, and came to this.
    pub fn note_itself(&mut self, done: Result<u64, StoreFault>, text: Text)
        ensures { self.new ≡ after_itself done text self.old }
    {
        match done {
            Ok(_) => self.write(text),
            Err(StoreFault::Refused(_)) => self.commit(),
            Err(_) => {}
        }
    }
}

/// The last text of entries behind their last state.
#[tactic(auto, using(crate::proofs::Lasts::last_there, crate::proofs::Lasts::none_there, crate::proofs::Lasts::state_there))]
pub fn last_of(entries: Items<Entry>) -> Option<Text>
    ensures { result ≡ last_text (map unplaced entries) }
{
    let mut entries = entries;
    while let Some(entry) = entries.pop() {
        match entry.body {
            Body::State(_) => return None,
            Body::Texts(texts) => {
                let mut texts = texts;
                if let Some(text) = texts.pop() {
                    return Some(text);
                }
            }
        }
    }
    None
}

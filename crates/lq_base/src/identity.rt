ghost use Rattle.std.specs.Prelude.{◌≡◌, ◌++◌, OnOk, OnErr};
ghost use Rattle.lq_base.specs.Name.{identity_text};

use crate::duplicate::{Duplicate, Same};
use crate::memory::NoMemory;
use crate::text::Text;
use std::alloc::Global;

/// What names a changeset: the file by which it was reached, its id and its author.
#[derive(Debug)]
pub struct Identity {
    pub file: Text,
    pub id: Text,
    pub author: Text,
}

// Written out, so that each place that lets one go is one call.
impl Drop for Identity {
    fn drop(self) {
        let Identity { file, id, author } = self;
        drop(file);
        drop(id);
        drop(author);
    }
}

impl Identity {
    /// Appends `FILE::ID::AUTHOR`, or changes nothing where there is no memory.
    pub fn append_to(&self, to: &mut Text) -> Result<(), NoMemory>
        ensures ok { OnOk result (to.new ≡ to.old ++ identity_text self.now) }
        ensures err { OnErr result (to.new ≡ to.old) }
    {
        let file = self.file.as_str();
        let id = self.id.as_str();
        let author = self.author.as_str();
        to.push_all(&[file, "::", id, "::", author])
    }
}

impl Duplicate for Identity {
    fn duplicate(&self, alloc: Global) -> Result<Identity, NoMemory> {
        Ok(Identity {
            file: self.file.duplicate(alloc)?,
            id: self.id.duplicate(alloc)?,
            author: self.author.duplicate(alloc)?,
        })
    }
}

impl Same for Identity {
    fn same(&self, other: &Identity) -> bool {
        self.file.same(&other.file) && self.id.same(&other.id) && self.author.same(&other.author)
    }
}

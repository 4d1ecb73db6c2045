ghost use Rattle.std.specs.Prelude.{◌≡◌};
ghost use Rattle.lq_base.specs.declared.fault.KindFault.TheVariants.{OutOfMemory as NoRoom};
ghost use Rattle.lq_sources.specs.Faults.{fault_of_files};
ghost use Rattle.lq_sources.specs.declared.fault.Lack.TheVariants.{Wrong};
ghost use Rattle.lq_sources.specs.declared.fault.LoadFault.TheVariants.{OutOfMemory};
ghost use Rattle.lq_sources.specs.declared.fault.What.TheVariants.{Key};

use crate::item::Included;
use lq_base::{KindFault, NoMemory, Text};
use lq_outside::FilesFault;
use std::alloc::{AllocError, AllocFailed};

/// What is wrong in a file.
#[derive(Drop)]
pub enum What {
    NotJson,
    FloatNumber,
    NotUtf8,
    TooDeep,
    NoHeader,
    /// The ending of its name is none that is known.
    UnknownFormat,
    /// Its path, or a path in it, cannot be one.
    BadPath,
    /// A line of formatted SQL, counted from 1.
    Line(u64),
    /// A key of its tree.
    Key(KindFault),
}

/// Why an item was not gathered.
#[derive(Drop)]
pub enum Lack {
    /// Something in it is wrong.
    Wrong(What),
    /// It wants the bytes of one file more.
    File(Included),
}

/// Why no changelog was loaded.
#[derive(Drop)]
pub enum LoadFault {
    /// The files failed.
    Read,
    NoFile(Text),
    /// The name ends in `.xml`.
    Xml(Text),
    Fault { path: Text, what: What },
    /// Includes are deeper than 32 levels.
    TooDeep(Text),
    /// More than 10,000 files or 10,000 changesets.
    TooMany,
    /// The file has more than 16,777,216 bytes, or all together more than 67,108,864.
    TooLong(Text),
    OutOfMemory,
}

impl From<KindFault> for What {
    ghost from_gives = { λ fault e. e ≡ Key fault };

    fn from(fault: KindFault) -> What {
        What::Key(fault)
    }
}

impl From<NoMemory> for What {
    ghost from_gives = { λ _ e. e ≡ Key NoRoom };

    fn from(_: NoMemory) -> What {
        What::Key(KindFault::OutOfMemory)
    }
}

impl From<What> for Lack {
    ghost from_gives = { λ what e. e ≡ Wrong what };

    fn from(what: What) -> Lack {
        Lack::Wrong(what)
    }
}

impl From<NoMemory> for Lack {
    ghost from_gives = { λ _ e. e ≡ Wrong (Key NoRoom) };

    fn from(_: NoMemory) -> Lack {
        Lack::Wrong(What::Key(KindFault::OutOfMemory))
    }
}

impl From<NoMemory> for LoadFault {
    ghost from_gives = { λ _ e. e ≡ OutOfMemory };

    fn from(_: NoMemory) -> LoadFault {
        LoadFault::OutOfMemory
    }
}

impl From<AllocError> for LoadFault {
    ghost from_gives = { λ _ e. e ≡ OutOfMemory };

    fn from(_: AllocError) -> LoadFault {
        LoadFault::OutOfMemory
    }
}

impl<T: Drop> From<AllocFailed<T>> for LoadFault {
    ghost from_gives = { λ _ e. e ≡ OutOfMemory };

    fn from(_: AllocFailed<T>) -> LoadFault {
        LoadFault::OutOfMemory
    }
}

impl From<FilesFault> for LoadFault {
    ghost from_gives = { λ f e. e ≡ fault_of_files f };

    fn from(fault: FilesFault) -> LoadFault {
        match fault {
            FilesFault::Failed => LoadFault::Read,
            FilesFault::OutOfMemory => LoadFault::OutOfMemory,
        }
    }
}

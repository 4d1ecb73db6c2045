ghost use Rattle.std.specs.Prelude.{◌≡◌, ◌<◌, ◌≤◌, ◌+◌, IfOk, None, OnOk};
ghost use Rattle.lq_props.specs.Props.{own};
ghost use Rattle.lq_sources.specs.Items.{given_values, nothing_yet, so_far, with_file, with_property, with_set};

use crate::item::Property;
use lq_base::{NoMemory, Text};
use lq_props::{Props, Scope};
use std::alloc::Global;

/// What was read so far, but for the changesets themselves.
#[derive(Drop)]
pub struct Reading {
    pub files: u32,
    pub bytes: u64,
    pub props: Props,
    /// How many changesets there are, those too that are to be ignored.
    pub sets: u32,
}

/// The properties of the command line.
fn given_props(alloc: Global, given: &[(Text, Text)]) -> Result<Props, NoMemory>
    ensures { IfOk result (λ props. own props ≡ given_values given.now (λ scope name. None)) }
{
    let mut props = Props::new(alloc);
    for entry in given {
        props.define(alloc, Scope::Command, entry.0.as_str(), entry.1.as_str())?;
    }
    Ok(props)
}

impl Reading {
    /// What stands before the root is read: the properties of the command line.
    pub fn new(alloc: Global, given: &[(Text, Text)]) -> Result<Reading, NoMemory>
        ensures { IfOk result (λ reading. so_far reading ≡ nothing_yet given.now) }
    {
        let props = given_props(alloc, given)?;
        Ok(Reading {
            files: 0,
            bytes: 0,
            props,
            sets: 0,
        })
    }

    /// Counts a file of so many bytes.
    pub fn count_file(&mut self, length: usize)
        requires files { self.old.files < 10_000 }
        requires bytes { self.old.bytes + length ≤ 67_108_864 }
        ensures { so_far self.new ≡ with_file length (so_far self.old) }
    {
        self.files += 1;
        self.bytes += length as u64;
    }

    /// Counts a changeset.
    pub fn count_set(&mut self)
        requires { self.old.sets < 10_000 }
        ensures { so_far self.new ≡ with_set (so_far self.old) }
    {
        self.sets += 1;
    }

    /// Defines a property of the file at a path.
    pub fn define(&mut self, alloc: Global, path: &str, it: Property) -> Result<(), NoMemory>
        ensures { OnOk result (so_far self.new ≡ with_property path.now it (so_far self.old)) }
    {
        if !it.here {
            return Ok(());
        }
        let scope = if it.global {
            Scope::Global
        } else {
            Scope::File(Text::new(alloc, path)?)
        };
        self.props
            .define(alloc, scope, it.name.as_str(), it.value.as_str())
    }
}

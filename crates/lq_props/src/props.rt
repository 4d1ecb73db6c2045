ghost use Rattle.std.specs.Prelude.{◌≡◌, ℕ, List, None, OnOk, OnErr, IfOk, option_map};
ghost use Rattle.lq_props.specs.declared.scope.Scope.{Scope};
ghost use Rattle.lq_props.specs.Replaced.{replaced, AreOfLengths};
ghost use Rattle.std.proofs.Props.{props};

use crate::replacing::append_replaced;
use crate::scope::Scope;
use crate::values::{define_in, define_in_file, value_in, value_in_file};
use indexmap::{IndexMap, IndexSet};
use lq_base::{NoMemory, Text};
use std::alloc::Global;

/// The properties that have been defined. Contracts see the value that each scope has of a name,
/// `own`, and the value of a name in a file, `value_of`.
#[derive(Drop)]
pub struct Props {
    command: IndexMap<String, String>,
    files: IndexMap<String, IndexMap<String, String>>,
    global: IndexMap<String, String>,
    // The lengths of the names that were defined: a name of another length needs no look.
    lengths: IndexSet<usize>,
    ghost of_lengths: { AreOfLengths command files global lengths.keys } by { Prim.hlevel props },
}

impl Props {
    ghost use Rattle.lq_props.specs.Props.{own, value_of, defines};

    /// No name has a value.
    pub fn new(alloc: Global) -> Props
        ensures { (scope : Scope) (name : List ℕ) → own result scope name ≡ None }
    {
        Props {
            command: IndexMap::new(alloc),
            files: IndexMap::new(alloc),
            global: IndexMap::new(alloc),
            lengths: IndexSet::new(alloc),
        }
    }

    /// Gives a name a value in a scope. A name that has one there keeps it, as in Liquibase's
    /// documentation, "Property Substitution in Changelogs": the first definition counts.
    pub fn define(
        &mut self,
        alloc: Global,
        scope: Scope,
        name: &str,
        value: &str,
    ) -> Result<(), NoMemory>
        ensures ok { OnOk result ((s : Scope) (n : List ℕ) → own self.new s n
            ≡ defines (own self.old) scope name.now value.now s n) }
        ensures err { OnErr result
            ((s : Scope) (n : List ℕ) → own self.new s n ≡ own self.old s n) }
    {
        self.lengths.insert(name.len())?;
        match scope {
            Scope::Command => define_in(&mut self.command, alloc, name, value),
            Scope::File(file) => {
                define_in_file(&mut self.files, alloc, file.as_str(), name, value)
            }
            Scope::Global => define_in(&mut self.global, alloc, name, value),
        }
    }

    /// The value of a name in a file: the command line's, else the file's own, else the global one.
    #[tactic(auto, unfolding(crate::specs::Props::value_of))]
    pub fn value(&self, file: &str, name: &str) -> Option<&str>
        ensures { option_map (λ value. value.now) result ≡ value_of self.now file.now name.now }
    {
        if !self.lengths.contains(&name.len()) {
            return None;
        }
        if let Some(value) = value_in(&self.command, name) {
            return Some(value);
        }
        if let Some(value) = value_in_file(&self.files, file, name) {
            return Some(value);
        }
        value_in(&self.global, name)
    }

    /// A text of a file with each use `${NAME}` of a name that has a value replaced by the value.
    /// The name goes to the next `}`. A use of any other name stays as written, and reading goes on
    /// behind its `${`. What was put in is not read again.
    pub fn replace(&self, alloc: Global, file: &str, text: &str) -> Result<Text, NoMemory>
        ensures { IfOk result (λ made. made ≡ replaced (value_of self.now file.now) text.now) }
    {
        let mut made = Text::new(alloc, "")?;
        append_replaced(&mut made, self, file, text)?;
        Ok(made)
    }
}

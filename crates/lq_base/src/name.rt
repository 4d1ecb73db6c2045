ghost use Rattle.std.specs.Prelude.{◌≡◌, ◌↔◌, ◌&&◌, ◌++◌, IfOk, Option, false, option_map};
ghost use Rattle.lq_base.specs.Name.{IsName, IsNameKey, beside, is_elsewhere, is_name, is_name_key, is_named, parts_of, public, schema_of, text_of, within};

use crate::character::has_control;
use crate::duplicate::{Duplicate, Same};
use crate::memory::NoMemory;
use std::alloc::{AllocError, Global};
use std::cmp::Ordering;
use std::marker::Model;
use thiserror::Error;

/// Why a text was not made a name.
#[derive(Clone, Copy, Debug, PartialEq, Eq, Error)]
pub enum NameFault {
    #[error("not a name")]
    BadName,
    #[error("out of memory")]
    OutOfMemory,
}

impl From<AllocError> for NameFault {
    ghost use Rattle.std.specs.Prelude.{◌≡◌};
    ghost use Rattle.lq_base.specs.declared.name.NameFault.TheVariants.{OutOfMemory};

    ghost from_gives = { λ _ e. e ≡ OutOfMemory };

    fn from(_: AllocError) -> NameFault {
        NameFault::OutOfMemory
    }
}

/// The name of an object or of a part of one: a text in a schema. Each has 1 to 63 bytes, none of
/// them a control character (63 is PostgreSQL's limit). Contracts see the bytes of its key, by
/// which names are equal and ordered: the text alone in the schema `public`, else the schema,
/// U+001F and the text.
#[derive(Drop)]
pub struct Name {
    key: String,
}

impl Model for Name {
    ghost use Rattle.std.specs.Prelude.{List, ℕ, string_bytes};
    ghost use Rattle.lq_base.specs.Name.{IsNameKey};

    ghost Value = { List ℕ };

    ghost view = { λ t. string_bytes t.key };

    ghost invariant = { λ t. IsNameKey (string_bytes t.key) };
}

impl Name {
    /// The name of this text in the schema `public`. BadName where the text has not 1 to 63 bytes
    /// or has a control character.
    pub fn new(alloc: Global, text: &str) -> Result<Name, NameFault>
        ensures value { IfOk result (λ name. (name ≡ text.now) × IsName text.now) }
        ensures bad { (result ≡ Err NameFault.BadName) ↔ (is_name text.now ≡ false) }
    {
        if !is_name(text) {
            return Err(NameFault::BadName);
        }
        let key = String::from_str(alloc, text)?;
        Ok(Name { key })
    }

    /// The name of this text in this schema. BadName where one of the two has not 1 to 63 bytes or
    /// has a control character.
    pub fn within(alloc: Global, schema: &str, text: &str) -> Result<Name, NameFault>
        ensures value { IfOk result (λ name. name ≡ within schema.now text.now) }
        ensures texts { IfOk result (λ name. IsName schema.now × IsName text.now) }
        ensures bad { (result ≡ Err NameFault.BadName)
            ↔ (is_name schema.now && is_name text.now ≡ false) }
    {
        if !is_name(schema) || !is_name(text) {
            return Err(NameFault::BadName);
        }
        if is_public(schema) {
            let key = String::from_str(alloc, text)?;
            return Ok(Name { key });
        }
        let mut key = String::from_str(alloc, schema)?;
        key.push_str("\u{1f}")?;
        key.push_str(text)?;
        Ok(Name { key })
    }

    /// The name with this key. BadName where it is the key of none.
    pub fn from_key(alloc: Global, key: &str) -> Result<Name, NameFault>
        ensures value { IfOk result (λ name. (name ≡ key.now) × IsNameKey key.now) }
        ensures bad { (result ≡ Err NameFault.BadName) ↔ (is_name_key key.now ≡ false) }
    {
        if !is_name_key(key) {
            return Err(NameFault::BadName);
        }
        let key = String::from_str(alloc, key)?;
        Ok(Name { key })
    }

    /// What the name is known by in maps and in what is stored.
    pub fn as_key(&self) -> &str
        ensures value { result.now ≡ self.now }
        ensures name { IsNameKey self.now }
    {
        self.key.as_str()
    }

    /// Whether the name is in another schema than `public`.
    pub fn is_elsewhere(&self) -> bool
        ensures { result ≡ is_elsewhere self.now }
    {
        match parts_of(self.key.as_str()) {
            Some(_) => true,
            None => false,
        }
    }

    pub fn schema(&self) -> &str
        ensures value { result.now ≡ schema_of self.now }
        ensures name { IsName (schema_of self.now) }
    {
        match parts_of(self.key.as_str()) {
            Some((schema, _)) => schema,
            None => "public",
        }
    }

    pub fn text(&self) -> &str
        ensures value { result.now ≡ text_of self.now }
        ensures name { IsName (text_of self.now) }
    {
        match parts_of(self.key.as_str()) {
            Some((_, text)) => text,
            None => self.key.as_str(),
        }
    }

    /// The name of this text in the schema of another name. It needs no memory but that of the key.
    pub fn beside(&self, alloc: Global, other: &Name) -> Result<Name, NoMemory>
        ensures { IfOk result (λ name. name ≡ beside other.now (text_of self.now)) }
    {
        let _ = &other.key;
        match Name::within(alloc, other.schema(), self.text()) {
            Ok(name) => Ok(name),
            Err(_) => Err(NoMemory),
        }
    }
}

// What stands before the mark of a key, and behind it.
fn parts_of(key: &str) -> Option<(&str, &str)>
    ensures { option_map (λ parts. (parts.0.now, parts.1.now)) result ≡ parts_of key.now }
{
    key.split_once('\u{1f}')
}

fn is_public(schema: &str) -> bool
    ensures { result ≡ is_named schema.now public }
{
    schema.cmp("public").is_eq()
}

fn is_name_key(key: &str) -> bool
    ensures { result ≡ is_name_key key.now }
{
    match parts_of(key) {
        Some((schema, text)) => is_name(schema) && !is_public(schema) && is_name(text),
        None => is_name(key),
    }
}

fn is_name(text: &str) -> bool
    ensures { result ≡ is_name text.now }
{
    if text.is_empty() || text.len() > 63 {
        return false;
    }
    !has_control(text)
}

impl Duplicate for Name {
    fn duplicate(&self, alloc: Global) -> Result<Name, NoMemory> {
        let key = String::from_str(alloc, self.key.as_str())?;
        Ok(Name { key })
    }
}

impl PartialEq for Name {
    ghost use Rattle.lq_base.specs.Name.{is_named};
    ghost use Rattle.std.proofs.Common.{rules};
    ghost use Rattle.std.specs.Cmp.Rules.{comparing};

    ghost eq = { is_named };

    ghost laws = { Prim.search (comparing, rules) };

    fn eq(&self, other: &Name) -> bool {
        self.key.cmp(&other.key).is_eq()
    }
}

impl Eq for Name {
    ghost use Rattle.std.proofs.Common.{rules};
    ghost use Rattle.std.specs.Cmp.Rules.{comparing};

    ghost laws = { Prim.search (comparing, rules) };
}

impl PartialOrd for Name {
    ghost use Rattle.lq_base.specs.Name.{name_cmp};
    ghost use Rattle.std.specs.Cmp.{partial_order_from_own_ties};
    ghost use Rattle.std.specs.Ordering.{as_partial_cmp};
    ghost use Rattle.std.proofs.Common.{rules};
    ghost use Rattle.std.specs.Cmp.Rules.{comparing};

    ghost partial_cmp = { as_partial_cmp name_cmp };

    ghost laws = { partial_order_from_own_ties (Prim.search (comparing, rules)) (Prim.search (comparing, rules)) };

    fn partial_cmp(&self, other: &Name) -> Option<Ordering> {
        Some(self.cmp(other))
    }
}

impl Ord for Name {
    ghost use Rattle.lq_base.specs.Name.{name_cmp};
    ghost use Rattle.std.proofs.Common.{rules};
    ghost use Rattle.std.specs.Cmp.Rules.{comparing};

    ghost cmp = { name_cmp };

    ghost total = { Prim.search (comparing, rules) };

    ghost matches_partial_cmp = { Prim.search (comparing, rules) };

    ghost matches_eq = { Prim.search (comparing, rules) };

    fn cmp(&self, other: &Name) -> Ordering {
        self.key.cmp(&other.key)
    }
}

impl Same for Name {
    fn same(&self, other: &Name) -> bool {
        self.key.as_str() == other.key.as_str()
    }
}

ghost use Rattle.std.specs.Prelude.{◌≡◌, IfOk, true};
ghost use Rattle.lq_base.specs.Name.{is_name};
ghost use Rattle.lq_tree.specs.Look.{Reads};
ghost use Rattle.lq_load.specs.LoadKeys.{load_keys, separator_of};

use lq_base::{KindFault, Name, Text};
use lq_tree::{Given, Node, Reader, bad, known, optional, optional_by, public, required};
use std::alloc::Global;

/// What a node says of a load: which file, and how it is read.
#[derive(Drop)]
pub struct LoadKeys {
    pub table_name: Name,
    /// The file's path as it was given.
    pub file: Text,
    /// Whether the path is from the folder of the changelog's file.
    pub is_relative: bool,
    /// The byte between the fields of a line.
    pub separator: u8,
}

const KEYS: [&str; 7] = [
    "tableName",
    "file",
    "relativeToChangelogFile",
    "separator",
    "schemaName",
    "catalogName",
    "remarks",
];

/// Reads separators.
#[derive(Drop)]
struct Separators;

fn separator_of(text: &str) -> Option<u8>
    ensures { result ≡ separator_of text.now }
{
    match text {
        "," => Some(b','),
        ";" => Some(b';'),
        "\t" => Some(b'\t'),
        "|" => Some(b'|'),
        _ => None,
    }
}

impl Reader for Separators {
    ghost use Rattle.std.specs.Prelude.{true};
    ghost use Rattle.lq_load.specs.LoadKeys.{a_separator};

    type Read = u8;

    ghost of = { λ _. a_separator };

    ghost fits = { λ _ _. true };

    fn read(&self, alloc: Global, node: &Node) -> Result<u8, KindFault> {
        let text = Text::given(alloc, node)?;
        match separator_of(text.as_str()) {
            Some(separator) => Ok(separator),
            None => Err(bad(alloc)),
        }
    }
}

impl LoadKeys {
    /// What the node states, or the first fault in the order of the keys.
    #[tactic(auto, unfolding(crate::specs::LoadKeys::load_keys))]
    pub fn read(alloc: Global, node: &Node) -> Result<LoadKeys, KindFault>
        ensures read { Reads (load_keys node.now) result }
        ensures named { IfOk result (λ keys. is_name keys.table_name ≡ true) }
    {
        known(alloc, node, &KEYS)?;
        let table_name = required(alloc, node, "tableName")?;
        let file = required(alloc, node, "file")?;
        let relative: Option<bool> = optional(alloc, node, "relativeToChangelogFile")?;
        let separator = optional_by(alloc, node, "separator", &Separators)?;
        public(alloc, node)?;
        Ok(LoadKeys {
            table_name,
            file,
            is_relative: relative.unwrap_or(false),
            separator: separator.unwrap_or(b','),
        })
    }
}

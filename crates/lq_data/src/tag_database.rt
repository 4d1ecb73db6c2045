ghost use Rattle.std.specs.Prelude.{◌≡◌, IfOk, true};
ghost use Rattle.lq_tree.specs.Look.{Reads};
ghost use Rattle.lq_data.specs.TagDatabase.{a_tag_database, is_for, is_tag};

use lq_base::{Dialect, Items, KindFault, NoMemory, Text, char_count, has_control};
use lq_model::{Canon, Change, Field, Look, SqlText, Statement, Undo, write_change};
use lq_tree::{Given, Node, Reader, bad, known, public, required_by};
use std::alloc::Global;

/// The changeset's row gets a tag, and nothing else is done (Liquibase's documentation,
/// "tagDatabase").
#[derive(Drop)]
pub struct TagDatabase {
    pub tag: Text,
}

const KEYS: [&str; 4] = ["tag", "schemaName", "catalogName", "remarks"];

fn is_tag(text: &str) -> bool
    ensures { result ≡ is_tag text.now }
{
    let count = char_count(text);
    1 <= count && count <= 255 && !has_control(text)
}

/// Reads tags.
#[derive(Drop)]
struct Tags;

impl Reader for Tags {
    ghost use Rattle.lq_data.specs.TagDatabase.{a_tag, is_tag};

    type Read = Text;

    ghost of = { λ _. a_tag };

    ghost fits = { λ _. is_tag };

    fn read(&self, alloc: Global, node: &Node) -> Result<Text, KindFault> {
        let tag = Text::given(alloc, node)?;
        if !is_tag(tag.as_str()) {
            return Err(bad(alloc));
        }
        Ok(tag)
    }
}

impl TagDatabase {
    /// What a node states, or the first fault in the order of the keys.
    #[tactic(auto, unfolding(crate::specs::TagDatabase::a_tag_database))]
    pub fn read<P: SqlText>(
        alloc: Global,
        node: &Node,
        dialect: Dialect,
        _sql: &P,
    ) -> Result<TagDatabase, KindFault>
        ensures read { Reads (a_tag_database node.now) result }
        ensures right { IfOk result (λ x. is_for dialect x ≡ true) }
    {
        known(alloc, node, &KEYS)?;
        let tag = required_by(alloc, node, "tag", &Tags)?;
        public(alloc, node)?;
        Ok(TagDatabase { tag })
    }
}

impl Change for TagDatabase {
    ghost use Rattle.lq_data.specs.TagDatabase.{canonical_of, effect, gives, inverse, is_for, is_fresh, does, restores, returned, spelled, told};
    ghost use Rattle.lq_data.specs.declared.tag_database.TagDatabase.{TagDatabase};

    ghost Key = { TagDatabase };

    ghost key = { λ change. change };

    ghost is_for = { is_for };

    ghost effect = { effect };

    ghost fresh = { is_fresh };

    ghost gives = { gives };

    ghost inverse = { inverse };

    ghost canonical = { canonical_of };

    fn statements(
        &self,
        _alloc: Global,
        _dialect: Dialect,
        _to: &mut Items<Statement>,
    ) -> Result<(), NoMemory> {
        Ok(())
    }

    fn undo(&self, alloc: Global, _dialect: Dialect) -> Result<Undo, NoMemory> {
        Ok(Undo::Generated(Items::new(alloc)))
    }

    fn is_fresh<K: Look>(&self, _dialect: Dialect, _look: &K) -> bool {
        true
    }

    fn canon(&self, to: &mut Canon) -> Result<(), NoMemory> {
        write_change(
            to,
            "tagDatabase",
            &[("tag", Some(Field::Text(self.tag.as_str())))],
        )
    }

    ghost spelled = { spelled };

    ghost returned = { returned };

    ghost does = { does };

    ghost restores = { restores };

    ghost told = { told };
}

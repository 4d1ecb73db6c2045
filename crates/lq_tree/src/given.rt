ghost use Rattle.std.specs.Prelude.{◌≡◌, IfOk, true};
ghost use Rattle.lq_tree.specs.Look.{Reads};

use crate::found::bad;
use crate::node::Node;
use lq_base::{Kind, KindFault, Name, NameFault, Text};
use std::alloc::Global;

/// What a key takes.
pub trait Given: Sized {
    ghost use Rattle.std.specs.Prelude.{Bool};
    ghost use Rattle.lq_tree.specs.Look.{Taken};

    /// What each node is read as.
    ghost of: { Taken Self };

    /// What holds of all that is read.
    ghost fits: { Self → Bool };

    /// What the node is read as. The paths of faults begin at the node.
    fn given(alloc: Global, node: &Node) -> Result<Self, KindFault>
        ensures read { Reads (of node.now) result }
        ensures fits { IfOk result (λ given. fits given ≡ true) };
}

/// A scalar as it is printed.
impl Given for Text {
    ghost use Rattle.std.specs.Prelude.{true};
    ghost use Rattle.lq_tree.specs.Given.{a_text};

    ghost of = { a_text };

    ghost fits = { λ _. true };

    fn given(alloc: Global, node: &Node) -> Result<Text, KindFault> {
        match node.printed(alloc)? {
            Some(text) => Ok(text),
            None => Err(bad(alloc)),
        }
    }
}

/// A scalar that is printed as a name.
impl Given for Name {
    ghost use Rattle.lq_base.specs.Name.{is_name};
    ghost use Rattle.lq_tree.specs.Given.{a_name};

    ghost of = { a_name };

    ghost fits = { is_name };

    fn given(alloc: Global, node: &Node) -> Result<Name, KindFault> {
        let text = Text::given(alloc, node)?;
        match Name::new(alloc, text.as_str()) {
            Ok(name) => Ok(name),
            Err(NameFault::BadName) => Err(bad(alloc)),
            Err(NameFault::OutOfMemory) => Err(KindFault::OutOfMemory),
        }
    }
}

/// A scalar that is printed as a text which names a kind.
impl Given for Kind {
    ghost use Rattle.lq_base.specs.Kind.{is_kind};
    ghost use Rattle.lq_tree.specs.Given.{a_kind};

    ghost of = { a_kind };

    ghost fits = { is_kind };

    fn given(alloc: Global, node: &Node) -> Result<Kind, KindFault> {
        let text = Text::given(alloc, node)?;
        match Kind::read(text.as_str()) {
            Some(kind) => Ok(kind),
            None => Err(bad(alloc)),
        }
    }
}

/// A truth value, also as the text `true` or `false`.
impl Given for bool {
    ghost use Rattle.std.specs.Prelude.{true};
    ghost use Rattle.lq_tree.specs.Given.{a_truth};

    ghost of = { a_truth };

    ghost fits = { λ _. true };

    fn given(alloc: Global, node: &Node) -> Result<bool, KindFault> {
        match node.as_truth() {
            Some(truth) => Ok(truth),
            None => Err(bad(alloc)),
        }
    }
}

/// A whole number, and no text that spells one.
impl Given for i128 {
    ghost use Rattle.lq_tree.specs.Given.{a_whole, is_whole};

    ghost of = { a_whole };

    ghost fits = { is_whole };

    fn given(alloc: Global, node: &Node) -> Result<i128, KindFault> {
        match node.as_whole() {
            Some(whole) => Ok(whole),
            None => Err(bad(alloc)),
        }
    }
}

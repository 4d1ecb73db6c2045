ghost use Rattle.std.specs.Prelude.{◌≡◌, IfOk, IfSome, ◌≤◌};
ghost use Rattle.lq_yaml.specs.Machine.{deep_start, deep_step, deep_run, own_levels, finish};
ghost use Rattle.lq_yaml.specs.Tree.{value_levels};
ghost use Rattle.lq_yaml.specs.View.{place_of, Takes};
ghost use Rattle.lq_yaml.specs.Yaml.{deep_of};

use crate::place::Place;
use crate::token::Token;
use lq_base::NoMemory;
use lq_tree::Node;
use std::alloc::Global;
use std::cmp::max;

/// What has been read of a tree, and its deepest level so far.
#[derive(Drop)]
pub struct Builder {
    pub place: Place,
    pub levels: usize,
}

impl Builder {
    pub fn new(alloc: Global) -> Builder
        ensures { deep_of result ≡ deep_start }
    {
        Builder {
            place: Place::new(alloc),
            levels: 0,
        }
    }

    /// Takes a token, if it may stand here.
    fn take(&mut self, token: Token) -> Result<bool, NoMemory>
        ensures { IfOk result
            (λ b. Takes b (deep_step token (deep_of self.old)) (deep_of self.new)) }
    {
        let own = own_levels(&token);
        if !self.place.take(token)? {
            return Ok(false);
        }
        if let Some(own) = own {
            self.levels = max(self.levels, self.place.frames.len() + own);
        }
        Ok(true)
    }

    /// Takes the tokens of a line, if all may stand here.
    pub fn take_all(&mut self, tokens: Vec<Token>) -> Result<bool, NoMemory>
        ensures { IfOk result
            (λ b. Takes b (deep_run tokens.items (deep_of self.old)) (deep_of self.new)) }
    {
        for token in tokens {
            if !self.take(token)? {
                return Ok(false);
            }
        }
        Ok(true)
    }

    /// The node, if there is one.
    pub fn finish(self) -> Result<Option<Node>, NoMemory>
        ensures { IfOk result (λ o. o ≡ finish (place_of self.place)) }
    {
        let Builder { place, levels: _ } = self;
        place.finish()
    }
}

/// The levels of a token's own, beside the collections that are open; none where it reaches no level.
fn own_levels(token: &Token) -> Option<usize>
    ensures levels { result ≡ own_levels token.now }
    ensures few { IfSome result (λ own. own ≤ 1) }
{
    match token {
        Token::Begin(..) => Some(0),
        Token::Value(_, value) => Some(value_levels(value)),
        _ => None,
    }
}

fn value_levels(value: &Node) -> usize
    ensures levels { result ≡ value_levels value.now }
    ensures few { result ≤ 1 }
{
    match value {
        Node::List(_) | Node::Map(_) => 1,
        _ => 0,
    }
}

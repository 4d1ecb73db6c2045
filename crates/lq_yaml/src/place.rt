ghost use Rattle.std.specs.Prelude.{◌≡◌, ℕ, ◌<◌, IfOk, OnOk, length};
ghost use Rattle.lq_yaml.specs.Machine.{cell_node, top, start, step, again, add_line, finish, put};
ghost use Rattle.lq_yaml.specs.declared.place.Cell.TheVariants.{Empty};
ghost use Rattle.lq_yaml.specs.declared.token.Token.TheVariants.{Begin};
ghost use Rattle.lq_yaml.specs.View.{cell_of, stack, place_of, settled_place, Takes};

use crate::block::block_text;
use crate::part::Part;
use crate::token::{Chomping, Head, Token};
use lq_base::{Items, NoMemory, Text};
use lq_tree::Node;
use std::alloc::Global;
use std::mem;

/// An open collection.
#[derive(Drop)]
pub struct Frame {
    pub rank: usize,
    pub part: Part,
}

/// Nothing yet, a whole value, or an open literal block with its lines so far.
#[derive(Drop)]
pub enum Cell {
    Empty,
    Done(Node),
    Block(Chomping, Items<Text>),
}

/// What stands so far behind the innermost open head, and the open collections, the innermost last.
#[derive(Drop)]
pub struct Place {
    pub alloc: Global,
    pub cell: Cell,
    pub frames: Vec<Frame>,
}

impl Place {
    pub fn new(alloc: Global) -> Place
        ensures { place_of result ≡ start }
    {
        Place {
            alloc,
            cell: Cell::Empty,
            frames: Vec::new(alloc),
        }
    }

    fn top(&self) -> usize
        ensures { result ≡ top (stack self.now.frames.items) }
    {
        match self.frames.last() {
            Some(frame) => frame.rank,
            None => 0,
        }
    }

    /// What stands behind the innermost open head.
    fn behind(&mut self) -> Result<Node, NoMemory>
        ensures node { IfOk result (λ n. n ≡ cell_node (cell_of self.old.cell)) }
        ensures cell { self.new.cell ≡ Empty }
        ensures frames { self.new.frames ≡ self.old.frames }
    {
        let cell = mem::replace(&mut self.cell, Cell::Empty);
        match cell {
            Cell::Empty => Ok(Node::Null),
            Cell::Done(node) => Ok(node),
            Cell::Block(chomping, lines) => Ok(Node::Text(block_text(
                self.alloc,
                chomping,
                lines.as_slice(),
            )?)),
        }
    }

    /// Closes the innermost collection.
    fn close(&mut self) -> Result<(), NoMemory>
        requires { 0 < length self.old.frames.items }
        ensures shorter { length self.new.frames.items < length self.old.frames.items }
        ensures same { OnOk result ((q : ℕ) → q < top (stack self.old.frames.items)
            → settled_place q (place_of self.new) ≡ settled_place q (place_of self.old)) }
    {
        match self.frames.pop() {
            Some(frame) => {
                let node = self.behind()?;
                self.cell = Cell::Done(frame.part.filled(self.alloc, node)?);
                Ok(())
            }
            None => Ok(()),
        }
    }

    /// Closes the collections of greater rank.
    fn settle(&mut self, rank: usize) -> Result<(), NoMemory>
        ensures { OnOk result (place_of self.new ≡ settled_place rank (place_of self.old)) }
    {
        while rank < self.top() {
            self.close()?;
        }
        Ok(())
    }

    /// Takes what fills a place, if it may stand here.
    fn put(&mut self, rank: usize, cell: Cell) -> Result<bool, NoMemory>
        ensures { IfOk result (λ b.
            Takes b
            (let at = settled_place rank (place_of self.old) in put rank (cell_of cell) at.cell
            at.frames) (place_of self.new)) }
    {
        self.settle(rank)?;
        if !matches!(self.cell, Cell::Empty) || self.frames.is_empty() || self.top() >= rank {
            return Ok(false);
        }
        self.cell = cell;
        Ok(true)
    }

    /// Takes a line of the open literal block, if one is open.
    fn add_line(&mut self, line: Text) -> Result<bool, NoMemory>
        ensures { IfOk result (λ b.
            Takes b (add_line line (cell_of self.old.cell) (stack self.old.frames.items))
            (place_of self.new)) }
    {
        match &mut self.cell {
            Cell::Block(_, lines) => {
                lines.push(line)?;
                Ok(true)
            }
            _ => Ok(false),
        }
    }

    /// Takes what begins an entry, if it may stand here.
    fn begin(&mut self, rank: usize, head: Head) -> Result<bool, NoMemory>
        ensures { IfOk result
            (λ b. Takes b (step (Begin rank head) (place_of self.old)) (place_of self.new)) }
    {
        self.settle(rank)?;
        if self.top() < rank {
            if !matches!(self.cell, Cell::Empty) {
                return Ok(false);
            }
            self.frames.push(Frame {
                rank,
                part: Part::begun(self.alloc, head),
            })?;
            return Ok(true);
        }
        self.again(head)
    }

    fn again(&mut self, head: Head) -> Result<bool, NoMemory>
        ensures { IfOk result (λ b.
            Takes b (again head (cell_of self.old.cell) (stack self.old.frames.items))
            (place_of self.new)) }
    {
        match self.frames.pop() {
            None => Ok(false),
            Some(frame) => {
                if !frame.part.fits(&head) {
                    return Ok(false);
                }
                let node = self.behind()?;
                let part = frame.part.next(node, head)?;
                self.frames.push(Frame {
                    rank: frame.rank,
                    part,
                })?;
                Ok(true)
            }
        }
    }

    /// Takes a token, if it may stand here.
    pub fn take(&mut self, token: Token) -> Result<bool, NoMemory>
        ensures { IfOk result (λ b. Takes b (step token (place_of self.old)) (place_of self.new)) }
    {
        match token {
            Token::Begin(rank, head) => self.begin(rank, head),
            Token::Value(rank, value) => self.put(rank, Cell::Done(value)),
            Token::LiteralHeader(rank, chomping) => {
                let lines = Items::new(self.alloc);
                self.put(rank, Cell::Block(chomping, lines))
            }
            Token::LiteralLine(line) => self.add_line(line),
        }
    }

    /// The node, if there is one.
    pub fn finish(mut self) -> Result<Option<Node>, NoMemory>
        ensures { IfOk result (λ o. o ≡ finish (place_of self)) }
    {
        self.settle(0)?;
        let Place {
            alloc: _,
            cell,
            frames: _,
        } = self;
        match cell {
            Cell::Done(node) => Ok(Some(node)),
            _ => Ok(None),
        }
    }
}

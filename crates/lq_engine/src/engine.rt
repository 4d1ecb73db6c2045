ghost use Rattle.std.specs.Prelude.{◌≡◌, ◌∷◌, [], IfOk, OnOk, true};
ghost use Rattle.lq_chain.specs.History.{history};
ghost use Rattle.lq_model.specs.Catalogue.{no_objects};
ghost use Rattle.lq_model.specs.Sound.{IsSound};
ghost use Rattle.lq_model.specs.Step.{is_statement, step};
ghost use Rattle.lq_engine.specs.State.{Runs, back, oldest, state};
ghost use Rattle.lq_parts.specs.Taken.{IsOrdered};

use crate::arms::carry_out;
use crate::fault::PartsFault;
use lq_base::Dialect;
use lq_model::{By, Statement};
use lq_parts::{Parts, RunFault};
use lq_soundly::restored;
use lq_state::State as PlainState;
use lq_tried::keep_or_undo;
use std::alloc::Global;
use std::marker::Model;

/// A catalogue that statements change. It can go back to before the last of them, and to the last
/// `forget`.
#[derive(Drop)]
pub struct Engine {
    alloc: Global,
    pub(crate) dialect: Dialect,
    pub(crate) parts: Parts,
    /// The mark of the parts before each statement since the last `forget`, the newest last.
    starts: Vec<u64>,
}

impl Model for Engine {
    ghost use Rattle.lq_engine.specs.State.{State, state};
    ghost use Rattle.lq_model.specs.contracts.test.Test as test;
    ghost use Rattle.std.specs.Coded.{codes};

    ghost Value = { State };

    ghost coded = { Prim.hlevel (codes, test.the_row.coded) };

    ghost use Rattle.std.specs.Prelude.{reverse};
    ghost use Rattle.lq_engine.specs.State.{IsGood, stands_for};

    ghost view = { λ e. stands_for e.dialect e.parts (reverse e.starts.items) };

    ghost invariant = { λ e. IsGood e.dialect e.parts (reverse e.starts.items) };
}

impl Engine {
    /// No objects, and nothing to undo.
    pub fn new(alloc: Global, dialect: Dialect) -> Engine
        ensures { result ≡ state dialect no_objects [] }
    {
        Engine {
            alloc,
            dialect,
            parts: Parts::new(alloc),
            starts: Vec::new(alloc),
        }
    }

    // With nothing to undo.
    fn of_sound(alloc: Global, dialect: Dialect, parts: Parts) -> Engine
        requires { IsSound dialect parts.now × (parts ≡ history parts.now []) }
        ensures { result ≡ state dialect parts.now [] }
    {
        Engine {
            alloc,
            dialect,
            parts,
            starts: Vec::new(alloc),
        }
    }

    /// An engine of these tables, views and sequences, with nothing to undo. NotSound exactly where they
    /// are no sound catalogue of the dialect, of which each list stands in the order of its names.
    pub fn from_parts(
        alloc: Global,
        dialect: Dialect,
        parts: PlainState,
    ) -> Result<Engine, PartsFault>
        ensures made { IfOk result (λ engine. engine ≡ state dialect parts []) }
        ensures sound { OnOk result (IsSound dialect parts) }
        ensures fault { result ≡ Err PartsFault.NotSound → ¬ IsSound dialect parts }
    {
        match restored(alloc, dialect, parts)? {
            None => Err(PartsFault::NotSound),
            Some(kept) => Ok(Engine::of_sound(alloc, dialect, kept)),
        }
    }

    /// The catalogue is sound.
    pub fn sound(&self)
        ensures { IsSound self.now.dialect self.now.now }
    {
        let _ = &self.dialect;
    }

    /// The objects, as they are kept.
    pub fn parts(&self) -> &Parts
        ensures now { result.now.now ≡ self.now.now }
        ensures ordered { IsOrdered result.now.now.tables }
    {
        &self.parts
    }

    /// Runs a statement of the engine's dialect on someone's behalf, and answers how many rows it changed.
    /// A fault changes nothing.
    #[tactic(auto, using(crate::proofs::Marks::newest))]
    pub fn run(&mut self, by: By, statement: &Statement) -> Result<u64, RunFault>
        requires { is_statement self.old.dialect statement.now ≡ true }
        ensures { Runs (step by self.old.dialect statement.now self.old.now) self.old self.new
            result }
    {
        self.starts.reserve(1)?;
        let mark = self.parts.mark();
        let outcome = carry_out(self.alloc, &mut self.parts, self.dialect, by, statement);
        match keep_or_undo(&mut self.parts, mark, outcome) {
            Ok(count) => {
                self.starts.push_reserved(mark);
                Ok(count)
            }
            Err(fault) => Err(fault),
        }
    }

    /// Gives the catalogue before the last `run` that answered a number and is not undone; called again,
    /// before the one before it. It takes no memory.
    #[tactic(auto, using(crate::proofs::Marks::newest))]
    pub fn undo_last(&mut self)
        ensures { self.new ≡ back self.old }
    {
        if let Some(mark) = self.starts.pop() {
            self.parts.undo_to(mark);
        }
    }

    /// Gives the catalogue at the last `forget`. It takes no memory.
    pub fn undo(&mut self)
        ensures { self.new ≡ state self.old.dialect (oldest self.old.now self.old.past) [] }
    {
        self.starts.clear();
        self.parts.undo_to(0);
    }

    /// Keeps the catalogue as it is: nothing can be undone.
    pub fn forget(&mut self)
        ensures { self.new ≡ state self.old.dialect self.old.now [] }
    {
        self.starts.clear();
        self.parts.forget();
    }
}

ghost use Rattle.std.specs.Prelude.{◌≡◌, IsTrue};
ghost use Rattle.lq_store.specs.Journal.{other};
ghost use Rattle.tests_drill.specs.Looks.{looked};

use lq_base::Dialect;
use lq_drill::{DrillFault, Player};
use lq_model::{SqlText, StoreFault};
use lq_store::Store;

/// What a look at the database comes to.
#[derive(Clone, Copy, Debug, PartialEq, Eq)]
pub enum Looked {
    Alone,
    Locked,
    /// The session that has a transaction open.
    Busy(u32),
    Failed(DrillFault),
}

/// A player that looks once whether another one has a transaction open.
#[derive(Clone, Copy, Debug)]
pub struct Looker {
    pub dialect: Dialect,
    pub answer: Option<Looked>,
}

impl Player for Looker {
    ghost use Rattle.tests_drill.specs.Looks.{stands};
    ghost use Rattle.tests_drill.specs.declared.looker.Looked.TheVariants.{Busy, Failed, Locked};

    type Answer = Looked;

    ghost locked = { λ lock. Locked };

    ghost busy = { λ number. Busy number };

    ghost failed = { λ why. Failed why };

    ghost standing = { stands };

    ghost held = { λ player lock owned. absurd owned };

    ghost owed = { λ player why holder owes. absurd owes };

    fn has_answered(&self) -> bool {
        self.answer.is_some()
    }

    fn step<S: Store, P: SqlText>(
        &mut self,
        session: u32,
        store: &mut S,
        _sql: &P,
    ) -> Result<(), DrillFault> {
        self.answer = Some(look(session, store));
        Ok(())
    }
}

fn look<S: Store>(session: u32, store: &S) -> Looked
    requires valid { S.valid store.now }
    requires live { IsTrue (S.state store.now).live }
    ensures { result ≡ looked (other session (S.state store.now)) }
{
    match store.look(session) {
        Ok(_) => Looked::Alone,
        Err(StoreFault::Busy(other)) => Looked::Busy(other),
        Err(_) => unreachable!(),
    }
}

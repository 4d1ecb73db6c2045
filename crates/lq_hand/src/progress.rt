ghost use Rattle.std.specs.Prelude.{◌≡◌};
ghost use Rattle.lq_hand.specs.Hand.{calls_left};
ghost use Rattle.lq_hand.specs.Way.{coming_of, first_coming, no_progress, one_more, refusal_at, with_accepted, with_refused};
ghost use Rattle.lq_hand.specs.declared.progress.Coming.TheVariants.{Statement};
ghost use Rattle.lq_turns.specs.declared.call.Call.TheVariants.{Execute};

use crate::hand::Hand;
use lq_base::{Dialect, Reason};
use lq_turns::{Call, Deed, Refusal};

/// How far the turn in hand has come.
#[derive(Clone, Copy)]
pub struct Progress {
    /// How many of its user's statements were accepted.
    pub statement: u64,
    /// How many of those are committed.
    pub kept: u64,
}

/// What a call is to the count of a turn's statements.
#[derive(Clone, Copy)]
pub enum Coming {
    /// A user's statement, and whether it commits by itself.
    Statement(bool),
    Commit,
    Other,
}

impl Progress {
    /// That of a turn of which no call is made.
    pub fn none() -> Progress
        ensures { result ≡ no_progress }
    {
        Progress {
            statement: 0,
            kept: 0,
        }
    }

    /// After a call that was accepted. At the greatest u64 a count stays.
    pub fn with_accepted(self, call: Coming) -> Progress
        ensures { result ≡ with_accepted call self }
    {
        match call {
            Coming::Statement(commits) => self.with_statement(commits),
            Coming::Commit => Progress {
                statement: self.statement,
                kept: self.statement,
            },
            Coming::Other => self,
        }
    }

    fn with_statement(self, commits: bool) -> Progress
        ensures { result ≡ with_accepted (Statement commits) self }
    {
        let statement = one_more(self.statement);
        let kept = if commits { statement } else { self.kept };
        Progress { statement, kept }
    }

    /// After a call that was refused: one that commits by itself has committed those before it.
    pub fn with_refused(self, call: Coming) -> Progress
        ensures { result ≡ with_refused call self }
    {
        match call {
            Coming::Statement(true) => Progress {
                statement: self.statement,
                kept: self.statement,
            },
            Coming::Statement(false) | Coming::Commit | Coming::Other => self,
        }
    }

    /// The refusal of the statement after those that were accepted.
    pub fn refusal(self, reason: Reason) -> Refusal
        ensures { result ≡ refusal_at self reason }
    {
        Refusal {
            statement: one_more(self.statement),
            kept: self.kept,
            reason,
        }
    }
}

fn one_more(count: u64) -> u64
    ensures { result ≡ one_more count }
{
    count.saturating_add(1)
}

/// What the next call in hand is to the count.
pub fn next_coming(dialect: Dialect, hand: &Hand) -> Coming
    ensures { result ≡ first_coming dialect (calls_left hand.now) }
{
    match hand.calls.as_slice().split_last() {
        Some((call, _before)) => coming_of(dialect, call),
        None => Coming::Other,
    }
}

fn coming_of(dialect: Dialect, call: &Call) -> Coming
    ensures { result ≡ coming_of dialect call.now }
{
    match call {
        Call::Execute(deed) => deed_coming(dialect, deed),
        Call::Commit => Coming::Commit,
        Call::Begin | Call::Abort | Call::Alone(_, _) => Coming::Other,
    }
}

fn deed_coming(dialect: Dialect, deed: &Deed) -> Coming
    ensures { result ≡ coming_of dialect (Execute deed.now) }
{
    match deed {
        Deed::Users(statement) => Coming::Statement(statement.commits_itself(dialect)),
        Deed::Rows(_) | Deed::Locks(_) => Coming::Other,
    }
}

ghost use Rattle.std.specs.Prelude.{◌≡◌};
ghost use Rattle.lq_cli.specs.Job.{command_of, goal_of};

use lq_base::{Command, Items, Target, Text};
use lq_expr::Options;

/// What a command is to do.
pub enum Job {
    /// To run a command on the database.
    Run(Command),
    /// To print what `update` would execute.
    UpdateSql,
    /// To update by the changesets up to and with so many that run.
    UpdateCount(u64),
    /// To update by the changesets up to and with the first that sets this tag.
    UpdateTo(Text),
    /// To update, to take back what ran, and to update again.
    UpdateTestingRollback,
    /// To print what a rollback would execute.
    RollbackSql(Target),
    /// To take the checksum of each row.
    ClearSums,
    /// To take back the part of a changeset that a stop left without a row.
    UndoUnrecorded,
    /// To write the database as a state into its journal, where a transaction stands behind the last.
    Snapshot,
    /// To print the rows of the changesets that ran, in the order in which they did.
    History,
    /// To print a changelog by this author that makes the present objects.
    Generate(Text),
    /// To run the command lines of the file with this path in turns.
    Drill(Text),
    /// To run and take back a changelog that is made from a number, of so many changesets.
    Soak { number: u64, sets: u64 },
}

// Written out, so that each place that lets one go is one call.
impl Drop for Job {
    fn drop(self) {
        match self {
            Job::Run(it) => drop(it),
            Job::UpdateSql => (),
            Job::UpdateCount(_) => (),
            Job::UpdateTo(it) => drop(it),
            Job::UpdateTestingRollback => (),
            Job::RollbackSql(it) => drop(it),
            Job::ClearSums => (),
            Job::UndoUnrecorded => (),
            Job::Snapshot => (),
            Job::History => (),
            Job::Generate(it) => drop(it),
            Job::Drill(it) => drop(it),
            Job::Soak { number: _, sets: _ } => (),
        }
    }
}

impl Job {
    /// The command that runs on the database, where the job is one.
    pub fn into_command(self) -> Option<Command>
        ensures { result ≡ command_of self }
    {
        match self {
            Job::Run(command) => Some(command),
            _ => None,
        }
    }

    /// The tag that a rollback goes back to, or that an update goes on to.
    pub fn into_goal(self) -> Option<Text>
        ensures { result ≡ goal_of self }
    {
        match self {
            Job::Run(Command::Rollback(Target::Tag(tag))) => Some(tag),
            Job::RollbackSql(Target::Tag(tag)) => Some(tag),
            Job::UpdateTo(tag) => Some(tag),
            _ => None,
        }
    }
}

/// What the words of a command line ask for.
#[derive(Drop)]
pub struct Line {
    pub job: Job,
    /// The path of the database file.
    pub path: Text,
    pub options: Options,
    /// The path of the changelog, where the command reads one.
    pub root: Option<Text>,
    /// The names and values of the properties that the command line defines, in order.
    pub given: Items<(Text, Text)>,
}

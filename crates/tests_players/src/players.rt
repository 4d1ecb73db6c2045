ghost use Rattle.std.specs.List.{All};
ghost use Rattle.std.specs.Prelude.{◌≡◌, ◌≤◌, false};
ghost use Rattle.lq_drill.specs.Faults.{is_barred};
ghost use Rattle.lq_players.specs.AnyCommand.{IsUnstarted};
ghost use Rattle.lq_playing.specs.Under.{IsPlain};

use crate::given::{ALL, CLASH, FIRST, WARNS, changelog, options};
use crate::lines::command;
use lq_base::{Dialect, Text};
use lq_model::SqlText;
use lq_players::AnyCommand;
use lq_turns::Stamp;
use std::alloc::Global;
use std::process::Abort;

// Who runs the command of a place.
fn name(place: usize) -> &'static str
    ensures { is_barred result.now ≡ false }
{
    match place {
        0 => "ann",
        1 => "bob",
        2 => "cat",
        _ => "dan",
    }
}

// When the command of a place begins.
fn moment(place: usize) -> u64
    ensures { result ≤ 253402300799999 }
{
    match place {
        0 => 1000,
        1 => 2000,
        2 => 3000,
        _ => 4000,
    }
}

fn stamp(rt: &impl Abort, alloc: Global, place: usize) -> Stamp
    ensures moment { result.reading ≤ 253402300799999 }
    ensures plain { IsPlain result }
{
    Stamp {
        who: Text::new(alloc, name(place)).expect(rt, "memory"),
        reading: moment(place),
    }
}

fn json_of(line: &str) -> &'static str {
    match line {
        "update first" => FIRST,
        "update clash" => CLASH,
        "update warns" => WARNS,
        _ => ALL,
    }
}

/// The command of a line, which has this place. It keeps the texts of its statements, or does not.
pub fn player<P: SqlText>(
    rt: &impl Abort,
    alloc: Global,
    dialect: Dialect,
    sql: &P,
    place: usize,
    line: &str,
    prints: bool,
) -> AnyCommand
    requires { P.dialect ≡ dialect }
    ensures { IsUnstarted P.dialect result }
{
    let changelog = changelog(rt, alloc, dialect, sql, json_of(line));
    let stamp = stamp(rt, alloc, place);
    let command = command(rt, alloc, line);
    let options = options(alloc, dialect);
    AnyCommand::new(alloc, dialect, stamp, command, changelog, options, prints)
}

/// The commands of lines with `/` between, as `update/tag v1`. The changelog of `update first` is the
/// first changeset alone, and that of `update clash` has a statement that is refused.
pub fn players<P: SqlText>(
    rt: &impl Abort,
    alloc: Global,
    dialect: Dialect,
    sql: &P,
    lines: &str,
) -> Vec<AnyCommand>
    requires { P.dialect ≡ dialect }
    ensures { All (IsUnstarted P.dialect) result.items }
{
    let mut players = Vec::new(alloc);
    for line in lines.split('/') {
        let player = player(rt, alloc, dialect, sql, players.len(), line, false);
        players.push(player).expect(rt, "memory");
    }
    players
}

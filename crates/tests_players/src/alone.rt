ghost use Rattle.std.specs.Prelude.{◌≡◌, IsTrue, None};
ghost use Rattle.lq_players.specs.AnyCommand.{IsUnstarted};

use crate::players::player;
use crate::rows::{Row, assert_both};
use crate::shown::{show_fault, show_player, show_report};
use lq_alone::run_alone;
use lq_base::Dialect;
use lq_drill::DrillFault;
use lq_model::SqlText;
use lq_players::AnyCommand;
use lq_store::Store;
use std::alloc::Global;
use std::process::Abort;

fn by_itself<S: Store, P: SqlText>(
    player: &mut AnyCommand,
    store: &mut S,
    sql: &P,
) -> Result<(), DrillFault>
    requires valid { S.valid store.old }
    requires live { IsTrue (S.state store.old).live }
    requires closed { (S.state store.old).begun ≡ None }
    requires sql { P.dialect ≡ (S.state store.old).dialect }
    requires unstarted { IsUnstarted P.dialect player.old }
{
    run_alone(player, store, sql)
}

/// What the command of a line answers that runs by itself, and how much it did.
pub fn told_alone<S: Store, P: SqlText>(
    rt: &impl Abort,
    alloc: Global,
    store: &mut S,
    sql: &P,
    dialect: Dialect,
    line: &str,
) -> String
    requires valid { S.valid store.old }
    requires live { IsTrue (S.state store.old).live }
    requires closed { (S.state store.old).begun ≡ None }
    requires sql { P.dialect ≡ dialect }
    requires dialect { (S.state store.old).dialect ≡ dialect }
{
    let mut player = player(rt, alloc, dialect, sql, 0, line, true);
    let ended = by_itself(&mut player, store, sql);
    let mut out = String::new(alloc);
    show_player(&mut out, &player).expect(rt, "memory");
    let (_, report) = player.into_parts();
    show_report(&mut out, &report).expect(rt, "memory");
    if let Err(fault) = ended {
        show_fault(&mut out, fault).expect(rt, "memory");
    }
    out
}

// By itself a command leaves what it leaves as the only one of a drill.
const ALONE: [Row; 5] = [
    (
        ("update", "0"),
        "done, 3 happened, 3 printed",
        ("update", "1*60"),
    ),
    (
        ("update warns", "0"),
        "done, 1 happened, 1 warned, 1 printed",
        ("update warns", "1*60"),
    ),
    (("tag v1", "0"), "no target", ("tag v1", "1")),
    (("status", "0"), "done, 3 pending", ("status", "1")),
    (
        ("changelog-sync", "0"),
        "done, 3 happened",
        ("changelog-sync", "1*60"),
    ),
];

#[test]
fn a_command_by_itself_leaves_what_its_drill_leaves(rt: HostRuntime) {
    assert_both(&rt, rt.alloc(), &ALONE)
}

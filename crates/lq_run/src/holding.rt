ghost use Rattle.std.specs.Prelude.{◌≡◌, ◌≢◌, ◌↔◌, ◌++◌, ◌<◌, ◌^◌, IsTrue, List, MatchOption, Some, pos, ℕ};
ghost use Rattle.lq_run.specs.Stands.{Holds, Names, StandsBehind};

use lq_base::{Lock, Text};
use lq_turns::Stamp;

/// How the lock stands for a command that took it.
#[derive(Clone, Copy)]
pub enum Holding {
    /// Held with the command's bare name.
    Bare,
    /// Held with a mark behind the name.
    Marked,
    /// Free, or held by another.
    Lost,
}

/// How the lock stands for the command with this stamp. The reading is a moment.
pub fn lock_held(stamp: &Stamp, lock: &Lock) -> Holding
    requires reading { stamp.now.reading < 2 ^ 63 }
    ensures { Holds stamp.now lock.now result }
{
    match lock.granted {
        Some(at) => held_since(stamp, lock, at),
        None => Holding::Lost,
    }
}

fn held_since(stamp: &Stamp, lock: &Lock, at: i64) -> Holding
    requires reading { stamp.now.reading < 2 ^ 63 }
    requires granted { lock.now.granted ≡ Some at }
    ensures { Holds stamp.now lock.now result }
{
    match &lock.by {
        Some(by) => held_by(stamp, lock, at, by),
        None => Holding::Lost,
    }
}

fn held_by(stamp: &Stamp, lock: &Lock, at: i64, by: &Text) -> Holding
    requires reading { stamp.now.reading < 2 ^ 63 }
    requires granted { lock.now.granted ≡ Some at }
    requires by { lock.now.by ≡ Some by.now }
    ensures { Holds stamp.now lock.now result }
{
    let locked = lock.locked;
    if !locked {
        return Holding::Lost;
    }
    if is_reading(at, stamp.reading) {
        return text_held(&stamp.who, by);
    }
    Holding::Lost
}

fn text_held(who: &Text, by: &Text) -> Holding
    ensures { Names who.now by.now result }
{
    name_held(who.as_str(), by.as_str())
}

fn is_reading(at: i64, reading: u64) -> bool
    requires moment { reading < 2 ^ 63 }
    ensures { IsTrue result ↔ (at ≡ pos reading) }
{
    at == reading as i64
}

fn name_held(who: &str, by: &str) -> Holding
    ensures { Names who.now by.now result }
{
    match behind(who, by) {
        Some(rest) => mark_in(rest.as_bytes()),
        None => Holding::Lost,
    }
}

// What stands behind the name.
fn behind<'a>(who: &str, by: &'a str) -> Option<&'a str>
    ensures { MatchOption result ((rest : List ℕ) → by.now ≢ who.now ++ rest)
        (λ rest. by.now ≡ who.now ++ rest.now) }
{
    by.strip_prefix(who)
}

fn mark_in(rest: &[u8]) -> Holding
    ensures { StandsBehind rest.now result }
{
    match rest {
        [] => Holding::Bare,
        [first, ..] => {
            if *first == b'|' {
                Holding::Marked
            } else {
                Holding::Lost
            }
        }
    }
}

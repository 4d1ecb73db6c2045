ghost use Rattle.std.specs.Option.{ForSome};
ghost use Rattle.std.specs.Prelude.{◌≡◌, ◌++◌, OnOk};
ghost use Rattle.lq_base.specs.Moment.{IsMoment};
ghost use Rattle.lq_words.specs.Words.{who_text, granted_text, held_text};

use lq_base::{Lock, NoMemory, Text, print_moment};

fn who_of(by: &Option<Text>) -> &str
    ensures { result.now ≡ who_text by.now }
{
    match by {
        Some(by) => match by.as_str().split_once('|') {
            Some((who, _)) => who,
            None => by.as_str(),
        },
        None => "unknown",
    }
}

fn append_granted(granted: Option<i64>, to: &mut Text) -> Result<(), NoMemory>
    requires { ForSome granted IsMoment }
    ensures { OnOk result (to.new ≡ to.old ++ granted_text granted) }
{
    match granted {
        Some(moment) => print_moment(moment, to),
        None => to.push_str("unknown"),
    }
}

/// Appends who holds the lock and since when, between two texts.
#[tactic(auto, unfolding(crate::specs::Words::held_text))]
pub fn append_held(before: &str, lock: &Lock, after: &str, to: &mut Text) -> Result<(), NoMemory>
    requires { ForSome lock.now.granted IsMoment }
    ensures { OnOk result (to.new ≡ to.old ++ (before.now ++ (held_text lock.now ++ after.now))) }
{
    to.push_all(&[before, who_of(&lock.by), " since "])?;
    append_granted(lock.granted, to)?;
    to.push_str(after)
}

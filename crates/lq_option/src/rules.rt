ghost use Rattle.std.specs.Prelude.{◌≡◌, false};
ghost use Rattle.clap.specs.Walk.{rule_of};
ghost use Rattle.lq_option.specs.Rules.{define as define_rule, option as option_rule};

use clap::{Arg, ArgAction};
use std::alloc::Global;

/// An option of this name with one value, at most once.
pub fn option<'a>(alloc: Global, name: &'a str, required: bool) -> Arg<'a>
    ensures rule { rule_of result ≡ option_rule required name.entry.now }
    ensures local { result.global ≡ false }
{
    Arg::new(alloc, name).long(name).required(required)
}

/// The option `-D`, any number of times.
pub fn define<'a>(alloc: Global) -> Arg<'a>
    ensures rule { rule_of result ≡ define_rule }
    ensures local { result.global ≡ false }
{
    Arg::new(alloc, "define")
        .short('D')
        .action(ArgAction::Append)
}

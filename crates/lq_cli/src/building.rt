ghost use Rattle.std.specs.Prelude.{◌≡◌, IfOk, [], map, true, false};
ghost use Rattle.clap.specs.Simple.{app_of, with_rule};
ghost use Rattle.lq_cli.specs.Options.{command_of, rules_of};
ghost use Rattle.lq_cli.specs.Table.{takes};
ghost use Rattle.lq_option.specs.Rules.{option as option_rule};

use crate::form::Form;
use clap::Command;
use lq_option::{define, option};
use std::alloc::{AllocError, Global};

/// A command that takes the options of a form.
pub fn command_for<'a>(alloc: Global, form: Form) -> Result<Command<'a>, AllocError>
    ensures { IfOk result (λ c. app_of c
        ≡ command_of (rules_of (takes (map (λ w. w.now) form.required.now)
        (map (λ w. w.now) form.optional.now) form.defines))) }
{
    let mut command = bare(alloc);
    for name in form.required {
        command = with_option(command, alloc, name, true)?;
    }
    for name in form.optional {
        command = with_option(command, alloc, name, false)?;
    }
    if form.defines {
        return Ok(command.arg(define(alloc))?);
    }
    Ok(command)
}

fn bare<'a>(alloc: Global) -> Command<'a>
    ensures { app_of result ≡ command_of [] }
{
    Command::new(alloc, "liquibase")
        .no_binary_name(true)
        .disable_help_flag(true)
}

fn with_option<'a>(
    command: Command<'a>,
    alloc: Global,
    name: &'a str,
    required: bool,
) -> Result<Command<'a>, AllocError>
    ensures { IfOk result (λ c. app_of c
        ≡ with_rule (app_of command.entry) (option_rule required name.entry.now)) }
{
    let option = option(alloc, name, required);
    command.arg(option)
}

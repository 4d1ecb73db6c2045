ghost use Rattle.std.specs.Prelude.{◌≡◌, true, map, string_bytes, option_map};
ghost use Rattle.clap.specs.Simple.{app_of};
ghost use Rattle.clap.specs.Faults.{is_simple_and_free};
ghost use Rattle.lq_cli.specs.Job.{Gives};
ghost use Rattle.lq_cli.specs.Options.{are_plain, definitions, given_in, is_plain_word, matched, value};
ghost use Rattle.lq_cli.specs.Table.{form_of};

use crate::building::command_for;
use crate::fault::WordsFault;
use crate::form::Form;
use crate::verb::Verb;
use clap::error::ErrorKind;
use clap::{ArgMatches, Command};
use std::alloc::Global;
use std::marker::Model;

/// The options that words give, which contracts see as what `clap` found of each.
#[derive(Drop)]
pub struct Chosen<'a> {
    matches: ArgMatches<'a>,
}

impl<'a> Model for Chosen<'a> {
    ghost use Rattle.std.specs.Prelude.{List};
    ghost use Rattle.clap.specs.Walk.{Row, rows_of};
    ghost use Rattle.clap.specs.Matches.{found_of};

    ghost Value = { List Row };

    ghost view = { λ given. rows_of (found_of given.matches) };
}

impl<'a> Chosen<'a> {
    /// The options of a command, from the words after its name.
    #[tactic(auto, unfolding(crate::specs::Options::given_in))]
    pub fn read(alloc: Global, verb: Verb, words: &'a [String]) -> Result<Chosen<'a>, WordsFault>
        ensures { Gives (given_in (form_of verb) (map (λ word. string_bytes word) words.entry.now))
            result }
    {
        if !are_plain(words) {
            return Err(WordsFault::Usage);
        }
        let command = command_for(alloc, Form::of(verb))?;
        matched(command, words)
    }

    /// The value of an option.
    pub fn value(&self, name: &str) -> Option<&'a str>
        ensures { option_map (λ text. text.now) result ≡ value self.now name.now }
    {
        self.matches.get_str(name)
    }

    /// The values of `-D`, in order.
    pub fn definitions(&self) -> Option<&[&'a str]>
        ensures { option_map (λ texts. map (λ text. text.now) texts.now) result
            ≡ definitions self.now }
    {
        self.matches.get_strs("define")
    }
}

fn are_plain(words: &[String]) -> bool
    ensures { result ≡ are_plain (map (λ word. string_bytes word) words.now) }
{
    for word in words {
        if !is_plain(word.as_str()) {
            return false;
        }
    }
    true
}

fn is_plain(word: &str) -> bool
    ensures { result ≡ is_plain_word word.now }
{
    match word.as_bytes() {
        [b'-', b'-', _, ..] => true,
        [b'-', b'D', c, ..] => *c != b'=',
        [b'-', ..] => false,
        _ => true,
    }
}

fn matched<'a>(command: Command<'a>, words: &'a [String]) -> Result<Chosen<'a>, WordsFault>
    requires { is_simple_and_free (app_of command) ≡ true }
    ensures { Gives
        (matched (app_of command.entry) (map (λ word. string_bytes word) words.entry.now)) result }
{
    match command.try_get_matches_from(words) {
        Ok(matches) => Ok(Chosen { matches }),
        Err(error) => match error.kind() {
            ErrorKind::OutOfMemory => Err(WordsFault::OutOfMemory),
            _ => Err(WordsFault::Usage),
        },
    }
}

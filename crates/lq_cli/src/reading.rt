ghost use Rattle.std.specs.Prelude.{◌≡◌, IfOk, IfErr, map, None, Some, option_map, option_and_then, string_bytes};
ghost use Rattle.lq_cli.specs.Job.{Gives};
ghost use Rattle.lq_cli.specs.Line.{line_after, line_of, line_with};
ghost use Rattle.lq_cli.specs.Options.{definition_of, each, properties_of, url_of, value};
ghost use Rattle.lq_cli.specs.Table.{url as url_name};

use crate::chosen::Chosen;
use crate::fault::WordsFault;
use crate::job::job_of;
use crate::line::Line;
use crate::values::{contexts_of, definition_of, labels_of, url_of};
use crate::verb::Verb;
use lq_base::{Dialect, Items, NoMemory, Text};
use lq_expr::Options;
use std::alloc::Global;

/// Reads the words of a command line without the program's name. The first is a command's name, and
/// the others are its options in any order: `--name=value` or `--name value`, each at most once, and
/// `-Dname=value`. `Usage` comes exactly where the words are no command line.
///
/// The commands and options are those of Liquibase's documentation, "Liquibase commands".
pub fn read_words(alloc: Global, words: &[String]) -> Result<Line, WordsFault>
    ensures line { IfOk result
        (λ line. line_of (map (λ word. string_bytes word) words.now) ≡ Some line) }
    ensures usage { IfErr result (λ fault. fault ≡ WordsFault.Usage
        → line_of (map (λ word. string_bytes word) words.now) ≡ None) }
{
    match line_of(alloc, words) {
        Ok(line) => Ok(line),
        Err(WordsFault::Usage) => Err(WordsFault::Usage),
        Err(WordsFault::OutOfMemory) => Err(WordsFault::OutOfMemory),
    }
}

/// The path of the database file that the words name: nothing where they are no command line.
pub fn database_path(alloc: Global, words: &[String]) -> Result<Option<Text>, NoMemory>
    ensures { IfOk result (λ path. path
        ≡ option_map (λ line. line.path)
        (line_of (map (λ word. string_bytes word) words.now))) }
{
    match line_of(alloc, words) {
        Ok(line) => Ok(Some(line.path)),
        Err(WordsFault::Usage) => Ok(None),
        Err(WordsFault::OutOfMemory) => Err(NoMemory),
    }
}

#[tactic(auto, unfolding(crate::specs::Line::line_of))]
fn line_of(alloc: Global, words: &[String]) -> Result<Line, WordsFault>
    ensures { Gives (line_of (map (λ word. string_bytes word) words.now)) result }
{
    match words {
        [name, words @ ..] => match Verb::read(name.as_str()) {
            Some(verb) => line_after(alloc, verb, words),
            None => Err(WordsFault::Usage),
        },
        [] => Err(WordsFault::Usage),
    }
}

#[tactic(auto, unfolding(crate::specs::Line::line_after))]
fn line_after(alloc: Global, verb: Verb, words: &[String]) -> Result<Line, WordsFault>
    ensures { Gives (line_after verb (map (λ word. string_bytes word) words.now)) result }
{
    let given = Chosen::read(alloc, verb, words)?;
    line_with(alloc, verb, &given)
}

#[tactic(auto, unfolding(crate::specs::Line::line_with))]
fn line_with(alloc: Global, verb: Verb, given: &Chosen) -> Result<Line, WordsFault>
    ensures { Gives (line_with verb given.now) result }
{
    let Some((dialect, file)) = place_of(given) else {
        return Err(WordsFault::Usage);
    };
    let job = job_of(alloc, verb, given)?;
    let contexts = contexts_of(alloc, given.value("context-filter"))?;
    let labels = labels_of(alloc, given.value("label-filter"))?;
    let properties = properties_of(alloc, given.definitions())?;
    Ok(Line {
        job,
        path: Text::new(alloc, file)?,
        options: Options {
            dialect,
            contexts,
            labels,
        },
        root: copied(alloc, given.value("changelog-file"))?,
        given: properties,
    })
}

fn place_of<'a>(given: &Chosen<'a>) -> Option<(Dialect, &'a str)>
    ensures { option_map (λ place. (place.0, place.1.now)) result
        ≡ option_and_then url_of (value given.now url_name) }
{
    url_of(given.value("url")?)
}

fn copied(alloc: Global, text: Option<&str>) -> Result<Option<Text>, NoMemory>
    ensures { IfOk result (λ copy. copy ≡ option_map (λ t. t.now) text.entry) }
{
    match text {
        Some(text) => Ok(Some(Text::new(alloc, text)?)),
        None => Ok(None),
    }
}

#[tactic(auto, unfolding(crate::specs::Options::properties_of))]
fn properties_of(alloc: Global, texts: Option<&[&str]>) -> Result<Items<(Text, Text)>, WordsFault>
    ensures { Gives (properties_of (option_map (λ ts. map (λ t. t.now) ts.now) texts.entry))
        result }
{
    match texts {
        Some(texts) => each_definition(alloc, texts),
        None => Ok(Items::new(alloc)),
    }
}

fn each_definition(alloc: Global, texts: &[&str]) -> Result<Items<(Text, Text)>, WordsFault>
    ensures { Gives (each definition_of (map (λ t. t.now) texts.now)) result }
{
    let mut properties = Items::new(alloc);
    for text in texts {
        properties.push(definition(alloc, text)?)?;
    }
    Ok(properties)
}

fn definition(alloc: Global, text: &str) -> Result<(Text, Text), WordsFault>
    ensures { Gives (definition_of text.now) result }
{
    match definition_of(text) {
        Some((name, value)) => {
            let name = Text::new(alloc, name)?;
            let value = Text::new(alloc, value)?;
            Ok((name, value))
        }
        None => Err(WordsFault::Usage),
    }
}

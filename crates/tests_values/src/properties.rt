use lq_base::{NoMemory, Text};
use lq_props::{Props, Scope};
use std::alloc::Global;
use tests_table::text;

// Makes one definition: where it stands, the name and the value. Other words define nothing.
fn define(alloc: Global, props: &mut Props, words: &[&str]) -> Result<(), NoMemory> {
    match words {
        ["command", name, value] => props.define(alloc, Scope::Command, name, value),
        ["global", name, value] => props.define(alloc, Scope::Global, name, value),
        ["file", file, name, value] => {
            let file = Text::new(alloc, file)?;
            props.define(alloc, Scope::File(file), name, value)
        }
        _ => Ok(()),
    }
}

fn define_next(alloc: Global, props: &mut Props, definition: &str) -> Result<(), NoMemory> {
    let words: Vec<&str> = definition.split(':').collect(alloc)?;
    define(alloc, props, words.as_slice())
}

fn defined(alloc: Global, definitions: &str) -> Result<Props, NoMemory> {
    let mut props = Props::new(alloc);
    for definition in definitions.split(';') {
        define_next(alloc, &mut props, definition)?;
    }
    Ok(props)
}

/// A text of a file with the values of its uses put in, under a list of definitions.
pub fn replaced(
    alloc: Global,
    definitions: &str,
    file: &str,
    field: &str,
) -> Result<String, NoMemory> {
    let text = text(alloc, field)?;
    let props = defined(alloc, definitions)?;
    let made = props.replace(alloc, file, text.as_str())?;
    Ok(String::from_str(alloc, made.as_str())?)
}

/// The value of a name in a file, under a list of definitions.
pub fn value(alloc: Global, definitions: &str, file: &str, name: &str) -> Result<String, NoMemory> {
    let props = defined(alloc, definitions)?;
    let told = props.value(file, name).unwrap_or("no value");
    Ok(String::from_str(alloc, told)?)
}

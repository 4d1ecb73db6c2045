use crate::shown::show;
use lq_base::NoMemory;
use lq_tree::{Node, TreeFault, read_json};
use lq_yaml::{YamlFault, read_yaml};
use std::alloc::{AllocError, Global};
use tests_table::{bytes, count, text};

fn shown(alloc: Global, node: &Node) -> Result<String, NoMemory> {
    let mut made = String::new(alloc);
    show(&mut made, node)?;
    Ok(made)
}

fn json_of(alloc: Global, bytes: &[u8]) -> Result<String, NoMemory> {
    match read_json(alloc, bytes) {
        Ok(node) => shown(alloc, &node),
        Err(fault) => Ok(format!(in alloc; "{fault}")?),
    }
}

/// A text of JSON as a tree.
pub fn json(alloc: Global, field: &str) -> Result<String, NoMemory> {
    json_of(alloc, bytes(alloc, field)?.as_slice())
}

fn repeated(out: &mut String, levels: usize, part: &str) -> Result<(), AllocError> {
    for _level in 0..levels {
        out.push_str(part)?;
    }
    Ok(())
}

/// Lists one in the other.
pub fn nested_json(alloc: Global, levels: &str) -> Result<String, NoMemory> {
    let mut made = String::new(alloc);
    repeated(&mut made, count(levels), "[")?;
    repeated(&mut made, count(levels), "]")?;
    Ok(match read_json(alloc, made.as_bytes()) {
        Ok(_) => String::from_str(alloc, "read")?,
        Err(fault) => format!(in alloc; "{fault}")?,
    })
}

fn told_of(alloc: Global, node: &Node, key: &str) -> Result<String, NoMemory> {
    let Some(value) = node.value_at(key) else {
        return Ok(String::from_str(alloc, "absent")?);
    };
    let mut out = String::new(alloc);
    match value.printed(alloc)? {
        Some(text) => out.push_str(text.as_str())?,
        None => out.push_str("no scalar")?,
    }
    match value.as_truth() {
        Some(true) => out.push_str(", true")?,
        Some(false) => out.push_str(", false")?,
        None => {}
    }
    Ok(out)
}

/// The value at a key of a map, as it is printed and as a truth value.
pub fn told(alloc: Global, of: &str, key: &str) -> Result<String, NoMemory> {
    match read_json(alloc, bytes(alloc, of)?.as_slice()) {
        Ok(node) => told_of(alloc, &node, key),
        Err(fault) => Ok(format!(in alloc; "{fault}")?),
    }
}

fn unknown_of(alloc: Global, node: &Node, known: &str) -> Result<String, NoMemory> {
    let known: Vec<&str> = known.split(',').collect(alloc)?;
    let found = match node.unknown_key(known.as_slice()) {
        Some(key) => key.as_str(),
        None => "",
    };
    Ok(String::from_str(alloc, found)?)
}

/// The first key of a map that is not among the known ones.
pub fn unknown(alloc: Global, of: &str, known: &str) -> Result<String, NoMemory> {
    match read_json(alloc, bytes(alloc, of)?.as_slice()) {
        Ok(node) => unknown_of(alloc, &node, known),
        Err(fault) => Ok(format!(in alloc; "{fault}")?),
    }
}

/// The lowest number, as it is printed.
pub fn lowest(alloc: Global) -> Result<String, NoMemory> {
    match Node::Whole(i128::MIN).printed(alloc)? {
        Some(text) => Ok(String::from_str(alloc, text.as_str())?),
        None => Ok(String::from_str(alloc, "no text")?),
    }
}

/// The parts of a list, as they are lent.
pub fn lent(alloc: Global) -> Result<String, NoMemory> {
    let Ok(node) = read_json(alloc, b"[{\"k\":\"v\"},7]") else {
        return Ok(String::from_str(alloc, "not read")?);
    };
    let Some([first, second]) = node.as_list() else {
        return Ok(String::from_str(alloc, "no list of two")?);
    };
    let is_seven = second.as_whole() == Some(7) && !second.is_null();
    let Some([entry]) = first.as_map() else {
        return Ok(String::from_str(alloc, "no map of one")?);
    };
    let value = entry.1.as_text().unwrap_or("no text");
    Ok(format!(in alloc; "{is_seven} {value}")?)
}

fn yaml_of(alloc: Global, bytes: &[u8]) -> Result<String, NoMemory> {
    if bytes.len() > 10_000 {
        return Ok(String::from_str(alloc, "too long")?);
    }
    match read_yaml(alloc, bytes) {
        Ok(node) => shown(alloc, &node),
        Err(fault) => Ok(format!(in alloc; "{fault}")?),
    }
}

/// A text of YAML as a tree.
pub fn yaml(alloc: Global, field: &str) -> Result<String, NoMemory> {
    yaml_of(alloc, bytes(alloc, field)?.as_slice())
}

fn fault_of(alloc: Global, bytes: &[u8]) -> Result<String, NoMemory> {
    if bytes.len() > 10_000 {
        return Ok(String::from_str(alloc, "too long")?);
    }
    Ok(match read_yaml(alloc, bytes) {
        Ok(_) => String::from_str(alloc, "read")?,
        Err(fault) => format!(in alloc; "{fault}")?,
    })
}

/// Sequences one in the other, each in a line of its own and two columns deeper.
pub fn yaml_steps(alloc: Global, levels: &str) -> Result<String, NoMemory> {
    let mut made = String::new(alloc);
    for level in 0..count(levels) {
        repeated(&mut made, level, "  ")?;
        made.push_str("-\n")?;
    }
    fault_of(alloc, made.as_bytes())
}

/// Sequences one in the other in one line, and what the innermost holds.
pub fn yaml_dashes(alloc: Global, levels: &str, inside: &str) -> Result<String, NoMemory> {
    let mut made = String::new(alloc);
    repeated(&mut made, count(levels), "- ")?;
    made.push_str(inside)?;
    fault_of(alloc, made.as_bytes())
}

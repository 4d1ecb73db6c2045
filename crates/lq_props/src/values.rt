ghost use Rattle.std.specs.Prelude.{◌≡◌, ℕ, List, OnOk, OnErr, option_map};
ghost use Rattle.lq_props.specs.Replaced.{value_in, value_in_file, defined, defined_in_file};

use indexmap::IndexMap;
use lq_base::NoMemory;
use std::alloc::Global;

/// The value of a name.
pub fn value_in<'a>(values: &'a IndexMap<String, String>, name: &str) -> Option<&'a str>
    ensures { option_map (λ value. value.now) result ≡ value_in values.now name.now }
{
    match values.get(name) {
        Some(value) => Some(value.as_str()),
        None => None,
    }
}

/// The value of a name in a file.
pub fn value_in_file<'a>(
    files: &'a IndexMap<String, IndexMap<String, String>>,
    file: &str,
    name: &str,
) -> Option<&'a str>
    ensures { option_map (λ value. value.now) result
        ≡ value_in_file files.now file.now name.now }
{
    match files.get(file) {
        Some(values) => value_in(values, name),
        None => None,
    }
}

/// Gives a name a value, unless it has one.
pub fn define_in(
    values: &mut IndexMap<String, String>,
    alloc: Global,
    name: &str,
    value: &str,
) -> Result<(), NoMemory>
    ensures ok { OnOk result
        ((n : List ℕ)
        → value_in values.new n ≡ defined (value_in values.old) name.now value.now n) }
    ensures err { OnErr result ((n : List ℕ)
        → value_in values.new n ≡ value_in values.old n) }
{
    if values.contains_key(name) {
        return Ok(());
    }
    let key = String::from_str(alloc, name)?;
    let text = String::from_str(alloc, value)?;
    values.insert(key, text)?;
    Ok(())
}

/// Gives a name a value in a file, unless it has one there.
pub fn define_in_file(
    files: &mut IndexMap<String, IndexMap<String, String>>,
    alloc: Global,
    file: &str,
    name: &str,
    value: &str,
) -> Result<(), NoMemory>
    ensures ok { OnOk result ((f n : List ℕ) → value_in_file files.new f n
        ≡ defined_in_file (value_in_file files.old) file.now name.now value.now f n) }
    ensures err { OnErr result
        ((f n : List ℕ) → value_in_file files.new f n ≡ value_in_file files.old f n) }
{
    if let Some(values) = files.get_mut(file) {
        return define_in(values, alloc, name, value);
    }
    let mut values = IndexMap::new(alloc);
    define_in(&mut values, alloc, name, value)?;
    let key = String::from_str(alloc, file)?;
    files.insert(key, values)?;
    Ok(())
}

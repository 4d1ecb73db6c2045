use lq_base::{
    Dialect, IntoFault, Kind, Literal, NoMemory, Text, Value, append_fixed, append_whole,
    into_kind, is_moment, print_moment, read_moment, read_number,
};
use std::alloc::Global;
use tests_table::{count, text};

fn units(field: &str) -> i128 {
    field.parse::<i128>().unwrap_or(0)
}

fn scale(field: &str) -> u8 {
    field.parse::<u8>().unwrap_or(0)
}

/// A literal of the table: `null`, `true`, a whole number, units and a scale as `105/1`, or a text
/// after a quote.
fn literal(alloc: Global, field: &str) -> Result<Literal, NoMemory> {
    match field {
        "null" => return Ok(Literal::Null),
        "true" => return Ok(Literal::Bool(true)),
        _ => {}
    }
    if let Some(behind) = field.strip_prefix('\'') {
        return Ok(Literal::Text(Text::new(alloc, text(alloc, behind)?.as_str())?));
    }
    Ok(match field.split_once('/') {
        Some((front, back)) => Literal::Fixed {
            units: units(front),
            scale: scale(back),
        },
        None => Literal::Int(units(field)),
    })
}

fn show_literal(alloc: Global, it: &Literal) -> Result<String, NoMemory> {
    Ok(match it {
        Literal::Null => String::from_str(alloc, "null")?,
        Literal::Int(number) => format!(in alloc; "{number}")?,
        Literal::Fixed { units, scale } => format!(in alloc; "{units}/{scale}")?,
        Literal::Text(text) => format!(in alloc; "'{}", text.as_str())?,
        Literal::Bool(truth) => format!(in alloc; "{truth}")?,
    })
}

fn show_value(alloc: Global, it: &Value) -> Result<String, NoMemory> {
    Ok(match it {
        Value::Null => String::from_str(alloc, "null")?,
        Value::Int(number) => format!(in alloc; "{number}")?,
        Value::Fixed { units, scale } => format!(in alloc; "{units}/{scale}")?,
        Value::Text(text) => format!(in alloc; "'{}", text.as_str())?,
        Value::Bool(truth) => format!(in alloc; "{truth}")?,
        Value::Moment(ms) => format!(in alloc; "at {ms}")?,
    })
}

fn show_made(alloc: Global, kind: Kind, made: &Value) -> Result<String, NoMemory> {
    let mut shown = show_value(alloc, made)?;
    if !made.is_of(kind) {
        shown.push_str(" not of the kind")?;
    }
    Ok(shown)
}

/// What a literal becomes in a kind.
pub fn into(alloc: Global, of: &str, kind: &str) -> Result<String, NoMemory> {
    let Some(kind) = Kind::read(kind) else {
        return Ok(String::from_str(alloc, "no kind")?);
    };
    let literal = literal(alloc, of)?;
    match into_kind(alloc, &literal, kind) {
        Ok(made) => show_made(alloc, kind, &made),
        Err(IntoFault::WrongKind) => Ok(String::from_str(alloc, "wrong kind")?),
        Err(IntoFault::TooWide) => Ok(String::from_str(alloc, "too wide")?),
        Err(IntoFault::OutOfMemory) => Err(NoMemory),
    }
}

/// The number that a text is read as.
pub fn number(alloc: Global, field: &str) -> Result<String, NoMemory> {
    match read_number(text(alloc, field)?.as_str()) {
        Some(literal) => show_literal(alloc, &literal),
        None => Ok(String::from_str(alloc, "no")?),
    }
}

fn shown(alloc: Global, it: &Text) -> Result<String, NoMemory> {
    Ok(String::from_str(alloc, it.as_str())?)
}

/// Units at a scale, as they are printed.
pub fn fixed(alloc: Global, of: &str, at: &str) -> Result<String, NoMemory> {
    let mut made = Text::new(alloc, "")?;
    append_fixed(alloc, units(of), scale(at), &mut made)?;
    shown(alloc, &made)
}

/// A whole number, as it is printed behind a text.
pub fn whole(alloc: Global, of: &str) -> Result<String, NoMemory> {
    let mut made = Text::new(alloc, "n=")?;
    append_whole(units(of), &mut made)?;
    shown(alloc, &made)
}

fn spelled(alloc: Global, kind: Kind, dialect: Dialect) -> Result<Text, NoMemory> {
    let mut made = Text::new(alloc, "")?;
    kind.append_to(dialect, &mut made)?;
    Ok(made)
}

/// The kind that a text is read as, spelled in both dialects.
pub fn kind(alloc: Global, field: &str) -> Result<String, NoMemory> {
    let Some(kind) = Kind::read(text(alloc, field)?.as_str()) else {
        return Ok(String::from_str(alloc, "no")?);
    };
    let postgresql = spelled(alloc, kind, Dialect::Postgresql)?;
    let mysql = spelled(alloc, kind, Dialect::Mysql)?;
    let is = kind.is_kind();
    Ok(format!(in alloc; "{} {} {is}", postgresql.as_str(), mysql.as_str())?)
}

fn kind_of(word: &str, sizes: &str) -> Kind {
    match (word, sizes.split_once(',')) {
        ("decimal", Some((digits, places))) => Kind::Decimal(scale(digits), scale(places)),
        _ => Kind::Varchar(sizes.parse::<u32>().unwrap_or(0)),
    }
}

/// Whether a kind of these sizes, which no text is read as, is one.
pub fn is_kind(alloc: Global, word: &str, sizes: &str) -> Result<String, NoMemory> {
    let is = kind_of(word, sizes).is_kind();
    Ok(format!(in alloc; "{is}")?)
}

/// The moment that a text is read as.
pub fn moment(alloc: Global, field: &str) -> Result<String, NoMemory> {
    match read_moment(text(alloc, field)?.as_str()) {
        Some(ms) => Ok(format!(in alloc; "{ms}")?),
        None => Ok(String::from_str(alloc, "no")?),
    }
}

/// A moment, as it is printed and read back.
pub fn printed_moment(alloc: Global, field: &str) -> Result<String, NoMemory> {
    let ms = field.parse::<i64>().unwrap_or(0);
    if !is_moment(ms) {
        return Ok(String::from_str(alloc, "no moment")?);
    }
    let mut made = Text::new(alloc, "")?;
    print_moment(ms, &mut made)?;
    let back = read_moment(made.as_str()) == Some(ms);
    Ok(format!(in alloc; "{} {back}", made.as_str())?)
}

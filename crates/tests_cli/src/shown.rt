use lq_base::{Command, Dialect, NoMemory, Target, Text, append_whole};
use lq_cli::{Job, Line, WordsFault, read_words};
use lq_expr::Expr;
use std::alloc::Global;
use std::process::Abort;

fn words_of(alloc: Global, given: &[&str]) -> Result<Vec<String>, NoMemory> {
    let mut words = Vec::new(alloc);
    for word in given {
        let word = String::from_str(alloc, word)?;
        words.push(word)?;
    }
    Ok(words)
}

fn append_named(name: &str, text: &Text, to: &mut Text) -> Result<(), NoMemory> {
    to.push_all(&[name, "(", text.as_str(), ")"])
}

fn append_number(name: &str, number: i128, to: &mut Text) -> Result<(), NoMemory> {
    to.push_all(&[name, "("])?;
    append_whole(number, to)?;
    to.push_str(")")
}

fn append_target(target: &Target, to: &mut Text) -> Result<(), NoMemory> {
    match target {
        Target::Tag(tag) => append_named("Tag", tag, to),
        Target::Count(count) => append_number("Count", i128::from(*count), to),
        Target::Date(date) => append_number("Date", i128::from(*date), to),
    }
}

fn append_back(name: &str, target: &Target, to: &mut Text) -> Result<(), NoMemory> {
    to.push_all(&[name, "("])?;
    append_target(target, to)?;
    to.push_str(")")
}

fn append_command(command: &Command, to: &mut Text) -> Result<(), NoMemory> {
    match command {
        Command::Validate => to.push_str("Validate"),
        Command::Status => to.push_str("Status"),
        Command::Update => to.push_str("Update"),
        Command::Tag(tag) => append_named("Tag", tag, to),
        Command::Rollback(target) => append_back("Rollback", target, to),
        Command::Sync => to.push_str("Sync"),
        Command::Release => to.push_str("Release"),
    }
}

fn append_run(command: &Command, to: &mut Text) -> Result<(), NoMemory> {
    to.push_str("Run(")?;
    append_command(command, to)?;
    to.push_str(")")
}

fn append_soak(number: u64, sets: u64, to: &mut Text) -> Result<(), NoMemory> {
    append_number("Soak", i128::from(number), to)?;
    append_number("", i128::from(sets), to)
}

fn append_job(job: &Job, to: &mut Text) -> Result<(), NoMemory> {
    match job {
        Job::Run(command) => append_run(command, to),
        Job::UpdateSql => to.push_str("UpdateSql"),
        Job::UpdateCount(count) => append_number("UpdateCount", i128::from(*count), to),
        Job::UpdateTo(tag) => append_named("UpdateTo", tag, to),
        Job::UpdateTestingRollback => to.push_str("UpdateTestingRollback"),
        Job::RollbackSql(target) => append_back("RollbackSql", target, to),
        Job::ClearSums => to.push_str("ClearSums"),
        Job::UndoUnrecorded => to.push_str("UndoUnrecorded"),
        Job::Snapshot => to.push_str("Snapshot"),
        Job::History => to.push_str("History"),
        Job::Generate(author) => append_named("Generate", author, to),
        Job::Drill(path) => append_named("Drill", path, to),
        Job::Soak { number, sets } => append_soak(*number, *sets, to),
    }
}

fn dialect_name(dialect: Dialect) -> &'static str {
    match dialect {
        Dialect::Postgresql => " Postgresql ",
        Dialect::Mysql => " Mysql ",
    }
}

fn root_of(line: &Line) -> &str {
    match &line.root {
        Some(root) => root.as_str(),
        None => "-",
    }
}

/// The job, the dialect, the database and the changelog.
fn append_heading(line: &Line, to: &mut Text) -> Result<(), NoMemory> {
    append_job(&line.job, to)?;
    to.push_str(dialect_name(line.options.dialect))?;
    to.push_all(&[line.path.as_str(), " ", root_of(line)])
}

fn append_contexts(line: &Line, to: &mut Text) -> Result<(), NoMemory> {
    for name in line.options.contexts.as_slice() {
        to.push_all(&[" @", name.as_str()])?;
    }
    Ok(())
}

fn append_labels(line: &Line, to: &mut Text) -> Result<(), NoMemory> {
    match &line.options.labels {
        None => Ok(()),
        Some(Expr::Name(name)) => append_named(" Name", name, to),
        Some(Expr::Not(_)) => to.push_str(" Not"),
        Some(Expr::All(_)) => to.push_str(" All"),
        Some(Expr::Any(_)) => to.push_str(" Any"),
    }
}

fn append_given(line: &Line, to: &mut Text) -> Result<(), NoMemory> {
    for (name, value) in line.given.as_slice() {
        to.push_all(&[" ", name.as_str(), "=", value.as_str()])?;
    }
    Ok(())
}

/// Appends the line in one text: contexts with `@`, then the label filter, then properties.
pub fn append_line(line: &Line, to: &mut Text) -> Result<(), NoMemory> {
    append_heading(line, to)?;
    append_contexts(line, to)?;
    append_labels(line, to)?;
    append_given(line, to)
}

fn append_read(read: &Result<Line, WordsFault>, to: &mut Text) -> Result<(), NoMemory> {
    match read {
        Ok(line) => append_line(line, to),
        Err(WordsFault::Usage) => to.push_str("usage"),
        Err(WordsFault::OutOfMemory) => Err(NoMemory),
    }
}

/// What the words ask for, or `usage`.
pub fn told(alloc: Global, given: &[&str]) -> Result<Text, NoMemory> {
    let mut text = Text::new(alloc, "")?;
    let words = words_of(alloc, given)?;
    append_read(&read_words(alloc, words.as_slice()), &mut text)?;
    Ok(text)
}

/// Words that are a command line, and what they ask for.
pub type Row<'a> = (&'a [&'a str], &'a str);

/// What these words ask for.
pub fn tell(rt: &impl Abort, alloc: Global, rows: &[Row<'_>]) {
    for row in rows {
        let text = told(alloc, row.0).expect(rt, "memory");
        assert_eq!(rt; text.as_str(), row.1);
    }
}

/// Each of these is no command line.
pub fn refuse(rt: &impl Abort, alloc: Global, rows: &[&[&str]]) {
    for words in rows {
        let text = told(alloc, words).expect(rt, "memory");
        assert_eq!(rt; text.as_str(), "usage");
    }
}

use lq_base::{Exec, Items, Text, Tracked};
use std::alloc::Global;
use std::process::Abort;

pub fn text(rt: &impl Abort, alloc: Global, text: &str) -> Text {
    Text::new(alloc, text).expect(rt, "memory")
}

fn text_or_null(rt: &impl Abort, alloc: Global, word: &str) -> Option<Text> {
    if word == "null" {
        None
    } else {
        Some(text(rt, alloc, word))
    }
}

fn exec_of(rt: &impl Abort, word: &str) -> Exec {
    match word {
        "EXECUTED" => Exec::Executed,
        "RERAN" => Exec::Reran,
        "MARK_RAN" => Exec::MarkRan,
        _ => panic!(rt; "no way to come to a row"),
    }
}

fn row_of(rt: &impl Abort, alloc: Global, words: &[&str]) -> Tracked {
    let [id, author, file, exec, sum, tag, date, order] = words else {
        panic!(rt; "a row has eight words");
    };
    Tracked {
        id: text(rt, alloc, id),
        author: text(rt, alloc, author),
        filename: text(rt, alloc, file),
        date: date.parse::<i64>().expect(rt, "a date"),
        order: order.parse::<u32>().expect(rt, "an order"),
        exec: exec_of(rt, exec),
        md5sum: text_or_null(rt, alloc, sum),
        description: text(rt, alloc, ""),
        comments: text(rt, alloc, ""),
        tag: text_or_null(rt, alloc, tag),
        tool: text(rt, alloc, ""),
        contexts: text(rt, alloc, ""),
        labels: text(rt, alloc, ""),
        deployment: text(rt, alloc, ""),
    }
}

fn row_in(rt: &impl Abort, alloc: Global, line: &str) -> Tracked {
    let words: Vec<&str> = line.split(' ').collect(alloc).expect(rt, "memory");
    row_of(rt, alloc, words.as_slice())
}

/// The rows of a script, one a line: id, author, file, how it came to its row, checksum, tag, date in
/// milliseconds and order, with a blank between. `null` is no checksum and no tag.
pub fn rows(rt: &impl Abort, alloc: Global, script: &str) -> Items<Tracked> {
    let mut rows = Items::new(alloc);
    for line in script.lines() {
        rows.push(row_in(rt, alloc, line)).expect(rt, "memory");
    }
    rows
}

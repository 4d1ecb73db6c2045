ghost use Rattle.std.specs.Prelude.{◌≡◌, ◌≤◌, ◌++◌, IfOk, OnOk, string_bytes};
ghost use Rattle.lq_base.specs.Number.{last_digits};
ghost use Rattle.lq_track.specs.Database.{cut, row_of};

use lq_base::{Duplicate, Exec, Identity, NoMemory, Text, Tracked, both};
use std::alloc::{AllocError, Global};

/// What a changeset's row is made from.
#[derive(Drop)]
pub struct Ran<'a> {
    pub identity: &'a Identity,
    /// The command's reading of the clock, in milliseconds since 1970-01-01 UTC.
    pub reading: u64,
    /// The row's place in run order, from 1.
    pub order: u32,
    pub exec: Exec,
    pub checksum: &'a Text,
    /// The names of the changes' types, joined with `, `.
    pub description: &'a Text,
    pub comments: &'a Text,
    pub tag: &'a Option<Text>,
    pub contexts: &'a Text,
    pub labels: &'a Text,
}

/// The row of a changeset that was run or marked. Description, comments, contexts and labels are cut
/// to the 255 characters that their columns take.
pub fn row_of(alloc: Global, ran: Ran<'_>) -> Result<Tracked, NoMemory>
    requires { ran.reading ≤ 253402300799999 }
    ensures { IfOk result (λ row. row ≡ row_of ran.entry) }
{
    let who = both(ran.identity.id.copy(alloc), ran.identity.author.copy(alloc));
    let from = both(ran.identity.file.copy(alloc), ran.checksum.copy(alloc));
    let told = both(cut(alloc, ran.description), cut(alloc, ran.comments));
    let by = both(ran.tag.duplicate(alloc), Text::new(alloc, "profile-1"));
    let for_whom = both(cut(alloc, ran.contexts), cut(alloc, ran.labels));
    let last = both(for_whom, deployment_of(alloc, ran.reading));
    let all = both(both(both(who, from), both(told, by)), last);
    let ((((id, author), (filename, sum)), ((description, comments), (tag, tool))), last) = all?;
    let ((contexts, labels), deployment) = last;
    Ok(Tracked {
        id,
        author,
        filename,
        date: ran.reading as i64,
        order: ran.order,
        exec: ran.exec,
        md5sum: Some(sum),
        description,
        comments,
        tag,
        tool,
        contexts,
        labels,
        deployment,
    })
}

/// The first 255 characters.
fn cut(alloc: Global, text: &Text) -> Result<Text, NoMemory>
    ensures { IfOk result (λ made. made ≡ cut text.now) }
{
    let front = front_of(alloc, text.as_str())?;
    Text::new(alloc, front.as_str())
}

fn front_of(alloc: Global, text: &str) -> Result<String, AllocError>
    ensures { IfOk result (λ front. string_bytes front ≡ cut text.now) }
{
    text.chars().take(255).collect(alloc)
}

/// The last ten decimal digits of a reading.
fn deployment_of(alloc: Global, reading: u64) -> Result<Text, NoMemory>
    ensures { IfOk result (λ made. made ≡ last_digits 10 reading) }
{
    let mut digits = String::new(alloc);
    push_last_digits(10, reading, &mut digits)?;
    Text::new(alloc, &digits)
}

fn push_last_digits(count: u8, number: u64, to: &mut String) -> Result<(), AllocError>
    ensures { OnOk result (string_bytes to.new
        ≡ string_bytes to.old ++ last_digits count number) }
{
    if count == 0 {
        return Ok(());
    }
    push_last_digits(count - 1, number / 10, to)?;
    to.push((b'0' + (number % 10) as u8) as char)
}

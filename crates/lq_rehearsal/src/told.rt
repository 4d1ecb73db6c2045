ghost use Rattle.std.specs.List.{flat_map};
ghost use Rattle.std.specs.Prelude.{◌≡◌, ◌++◌, IfOk};
ghost use Rattle.lq_commands.specs.Refusals.{IsFault};
ghost use Rattle.lq_rehearsal.specs.Returns.{both_texts, is_done};
ghost use Rattle.lq_tell.specs.Lines.{warning_line, warning_lines};
ghost use Rattle.lq_tell.specs.declared.status.Status.TheVariants.{DiskFault};

use lq_base::{Identity, Items, NoMemory, Text, Why};
use lq_tell::{Done, Status};

/// The run came to its end.
pub fn is_done(status: &Status) -> bool
    ensures { result ≡ is_done status.now }
{
    match status {
        Status::Done => true,
        _ => false,
    }
}

/// A run that no check refuses meets a fault of the disk, or wants memory.
pub fn fault_of(status: Status) -> Status
    ensures fault { IsFault result }
    ensures disk { result ≡ DiskFault → status ≡ DiskFault }
{
    match status {
        Status::DiskFault => Status::DiskFault,
        _ => Status::OutOfMemory,
    }
}

/// What two runs tell, one after the other.
pub fn joined(first: Done, more: Done) -> Result<Done, NoMemory>
    ensures status { IfOk result (λ whole. whole.status ≡ more.status) }
    ensures out { IfOk result (λ whole. whole.out ≡ both_texts first.out more.out) }
    ensures warned { IfOk result (λ whole.
        warning_lines whole.own whole.warned
        ≡ warning_lines first.own first.warned ++ warning_lines more.own more.warned) }
{
    let Done {
        out,
        own,
        warned,
        ..
    } = first;
    let Done {
        status,
        out: text,
        own: why,
        warned: others,
    } = more;
    let out = both_texts(out, text)?;
    let warned = both_warned(warned, why, others)?;
    Ok(Done {
        status,
        out,
        own,
        warned,
    })
}

fn both_texts(first: Option<Text>, more: Option<Text>) -> Result<Option<Text>, NoMemory>
    ensures { IfOk result (λ text. text ≡ both_texts first more) }
{
    match (first, more) {
        (Some(first), Some(more)) => {
            let mut text = first;
            text.push_str(more.as_str())?;
            Ok(Some(text))
        }
        _ => Ok(None),
    }
}

fn both_warned(
    first: Items<(Option<Identity>, Why)>,
    own: Option<Why>,
    more: Items<(Option<Identity>, Why)>,
) -> Result<Items<(Option<Identity>, Why)>, NoMemory>
    ensures { IfOk result (λ warned.
        flat_map warning_line warned ≡ flat_map warning_line first ++ warning_lines own more) }
{
    let mut warned = first;
    match own {
        Some(why) => warned.push((None, why))?,
        None => {}
    }
    warned.append(more)?;
    Ok(warned)
}

ghost use Rattle.std.specs.Bool.{OnTrue};
ghost use Rattle.std.specs.Prelude.{◌≡◌, ◌≤◌, ◌&&◌, IfSome, is_some, nat_le, nat_lt, option_and_then, option_map};
ghost use Rattle.lq_base.specs.Kind.{plain_number};
ghost use Rattle.lq_report.specs.Mark.{lock_mark};
ghost use Rattle.lq_unrecorded.specs.Part.{counts_in, holder, if_part, is_back, is_part, number_in, part_mark};

use lq_base::{Lock, plain_number};
use lq_report::{Form, Mark, mark_of};

/// The mark of a held lock, where a statement of a changeset was run, or was taken back without a row.
pub fn part_mark(lock: &Lock) -> Option<Mark<'_>>
    ensures { option_map (λ mark. (mark.identity.now, mark.form, mark.statement.now)) result
        ≡ part_mark lock.now }
{
    if lock.locked {
        mark_of_part(lock)
    } else {
        None
    }
}

fn mark_of_part(lock: &Lock) -> Option<Mark<'_>>
    ensures { option_map (λ mark. (mark.identity.now, mark.form, mark.statement.now)) result
        ≡ option_and_then if_part (lock_mark lock.now) }
{
    let mark = mark_in(lock)?;
    if is_part(&mark) { Some(mark) } else { None }
}

fn mark_in(lock: &Lock) -> Option<Mark<'_>>
    ensures { option_map (λ mark. (mark.identity.now, mark.form, mark.statement.now)) result
        ≡ lock_mark lock.now }
{
    match &lock.by {
        Some(by) => mark_of(by.as_str()),
        None => None,
    }
}

fn is_part(mark: &Mark<'_>) -> bool
    ensures { result ≡ is_part mark.now.form }
{
    match mark.form {
        Form::Run | Form::Back => true,
        Form::Undo => false,
    }
}

/// Whether the statement of the mark was taken back without a row.
pub fn is_back(mark: &Mark<'_>) -> bool
    ensures { result ≡ is_back mark.now.form }
{
    match mark.form {
        Form::Back => true,
        Form::Run | Form::Undo => false,
    }
}

/// Who holds the lock: what stands before the first bar of LOCKEDBY.
pub fn holder(lock: &Lock) -> &str
    ensures { result.now ≡ holder lock.now }
{
    match &lock.by {
        Some(by) => match by.as_str().split_once('|') {
            Some((who, _)) => who,
            None => by.as_str(),
        },
        None => "",
    }
}

/// The number, where it is that of one of so many statements.
pub fn number_within(many: u64, digits: &str) -> Option<u64>
    ensures counts { is_some result ≡ counts_in many (plain_number digits.now) }
    ensures number { IfSome result (λ k. k ≡ number_in (plain_number digits.now)) }
    ensures within { IfSome result (λ k. k ≤ many) }
{
    match plain_number(digits.as_bytes()) {
        Some(number) => {
            if is_counted(number, many) {
                Some(number as u64)
            } else {
                None
            }
        }
        None => None,
    }
}

fn is_counted(number: u128, many: u64) -> bool
    ensures value { result ≡ (nat_lt 0 number && nat_le number many) }
    ensures within { OnTrue result (number ≤ many) }
{
    0 < number && number <= u128::from(many)
}

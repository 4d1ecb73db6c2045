ghost use Rattle.std.specs.List.{AllZip};
ghost use Rattle.std.specs.Prelude.{◌≡◌, IfOk, reverse};

use lq_base::{Items, NoMemory};
use std::alloc::Global;

/// What takes rows back, each in a way of its own.
pub trait UndoesRows {
    ghost use Rattle.std.specs.Prelude.{IfOk};

    type Row;

    type Way;

    /// What a row is taken back by.
    type Turn: Drop;

    /// It is the way in which the row is taken back.
    ghost is_way: { Self → Self.Row → Self.Way → Type 0 };

    /// It takes the row back.
    ghost is_turn: { Self → Self.Row → Self.Turn → Type 0 };

    /// What takes the row back.
    fn undo(&self, alloc: Global, row: &Self::Row, way: &Self::Way) -> Result<Self::Turn, NoMemory>
        requires { is_way self.now row.now way.now }
        ensures { IfOk result (λ turn. is_turn self.now row.now turn) };
}

/// What takes these rows back, the next one last, so that the last row's turn is popped first. The
/// ways are those of the rows, the last row's first.
pub fn undo_all<U: UndoesRows>(
    alloc: Global,
    by: &U,
    rows: &[U::Row],
    ways: &[U::Way],
) -> Result<Items<U::Turn>, NoMemory>
    requires { AllZip (U.is_way by.now) rows.now (reverse ways.now) }
    ensures { IfOk result (λ turns. AllZip (U.is_turn by.now) rows.now turns) }
{
    let mut turns = Items::new(alloc);
    let mut rest = rows;
    let mut left = ways;
    while let Some((row, after)) = rest.split_first() {
        let Some((way, front)) = left.split_last() else {
            unreachable!()
        };
        let turn = by.undo(alloc, row, way)?;
        turns.push(turn)?;
        left = front;
        rest = after;
    }
    Ok(turns)
}

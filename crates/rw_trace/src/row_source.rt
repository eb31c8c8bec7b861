//! Where rows in order of time come from, so that they need not be there all at once.
ghost use Rattle.std.specs.Prelude.{◌≡◌, ◌+◌, ◌≤◌, ◌<◌, ◌∷◌, [], All, IfErr, IfNone, IfOk, IfSome, OnOk, length};
ghost use Rattle.rw_trace.specs.Laws.{IsRow};
ghost use Rattle.rw_trace.specs.Pieces.{AreAll, ComeFirst, IsRefusal, RiseFrom, RowsAhead, last_time};

use crate::pieces::RowsFault;
use crate::{Row, TraceFault};

/// Where rows come from that stand in order of time. They are given one by one.
pub trait RowSource: Drop {
    /// What is still to come.
    ghost rest: { Self → RowsAhead };

    /// Gives the next row. `None` only where there is none.
    ///
    /// # Errors
    ///
    /// The first fault of what is read, `Order` where a row is before the one in front of it; and `Read` where a reader underneath
    /// answers an error. Nothing is said of the source then.
    fn next_row(&mut self) -> Result<Option<Row>, RowsFault>
        ensures edges { OnOk result ((rest self.new).edges ≡ (rest self.old).edges) }
        ensures first { IfOk result (λ next. IfSome next (λ row.
            ComeFirst (rest self.old).ahead (row ∷ []) (rest self.new).ahead)) }
        ensures most { IfOk result (λ next. IfSome next (λ row.
            (rest self.new).most + 1 ≡ (rest self.old).most)) }
        ensures rising { IfOk result (λ next. IfSome next (λ row.
            ((rest self.old).latest ≤ row.time) × ((rest self.new).latest ≡ row.time))) }
        ensures range { IfOk result (λ next. IfSome next (IsRow (rest self.old).edges)) }
        ensures none { IfOk result (λ next. IfNone next
            (AreAll (rest self.old).ahead [] × ((rest self.new).latest ≡ (rest self.old).latest)
            × ((rest self.new).most ≡ (rest self.old).most))) }
        ensures refused { IfErr result (IsRefusal (rest self.old).ahead) };
}

/// Takes the next rows of a source into `piece`, in place of what it held: at most so many, and fewer only where these are the last
/// ones.
///
/// # Errors
///
/// Those of [`next_row`](RowSource::next_row), and `Trace` with `Memory`. Nothing is said of the source then.
pub fn next_piece<S: RowSource>(
    source: &mut S,
    count: usize,
    piece: &mut Vec<Row>,
) -> Result<(), RowsFault>
    ensures edges { OnOk result ((S.rest source.new).edges ≡ (S.rest source.old).edges) }
    ensures few { OnOk result (length piece.new.items ≤ count) }
    ensures most { OnOk result
        ((S.rest source.new).most + length piece.new.items ≡ (S.rest source.old).most) }
    ensures first { OnOk result (length piece.new.items ≡ count
        → ComeFirst (S.rest source.old).ahead piece.new.items (S.rest source.new).ahead) }
    ensures all { OnOk result (length piece.new.items < count
        → AreAll (S.rest source.old).ahead piece.new.items) }
    ensures rising { OnOk result (RiseFrom (S.rest source.old).latest piece.new.items) }
    ensures latest { OnOk result ((S.rest source.new).latest
        ≡ last_time (S.rest source.old).latest piece.new.items) }
    ensures ranges { OnOk result (All (IsRow (S.rest source.old).edges) piece.new.items) }
    ensures refused { IfErr result (IsRefusal (S.rest source.old).ahead) }
{
    piece.clear();
    while piece.len() < count {
        let Some(row) = source.next_row()? else {
            return Ok(());
        };
        if piece.push(row).is_err() {
            return Err(RowsFault::Trace(TraceFault::Memory));
        }
    }
    Ok(())
}

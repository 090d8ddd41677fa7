ghost use Rattle.std.specs.Prelude.{◌≡◌, true, ◌<◌, ◌∷◌, [], ◌++◌, not, ◌==◌, cond, filter, length, map, slice_get, slice_set, Some, OnOk, OnErr};
ghost use Rattle.promises.specs.Past.{CallSoFar};
ghost use Rattle.audit_calls.specs.Indexed.{Indexed, id_key};
ghost use Rattle.audit_calls.specs.Rows.{replied, with_answer, with_earlier, with_grant, with_last_answer};
ghost use Rattle.audit_calls.specs.Uses.{use_key};
ghost use Rattle.audit_calls.specs.Waiting.{is_call_at, waiting_from, waiting_row};

use crate::CallRow;
use crate::uses::use_key;
use crate::waiting::{WaitingRow, first_at, forget, waiting_row};
use call_rules::Answer;
use key_places::{Places, call_key};
use locus_ids::NoMemory;
use trace_book::Descriptor;

// What becomes of the rows of the table, by their places.

/// One more call, after all others; none at all where memory has run out.
pub(crate) fn push_to(
    rows: &mut Vec<CallRow>,
    ids: &mut Places,
    uses: &mut Places,
    waiting: &mut Vec<WaitingRow>,
    row: CallRow,
) -> Result<(), NoMemory>
    ensures rows { OnOk result (rows.new.items ≡ rows.old.items ++ row ∷ []) }
    ensures index { Indexed rows.old.items ids.old uses.old waiting.old.items → row.waits ≡ true → Indexed rows.new.items ids.new uses.new waiting.new.items }
{
    match push_all(rows, ids, uses, waiting, row) {
        Ok(()) => Ok(()),
        Err(fault) => {
            forget_all(rows, ids, uses, waiting);
            Err(fault)
        }
    }
}

fn push_all(
    rows: &mut Vec<CallRow>,
    ids: &mut Places,
    uses: &mut Places,
    waiting: &mut Vec<WaitingRow>,
    row: CallRow,
) -> Result<(), NoMemory>
    ensures rows { OnOk result (rows.new.items ≡ rows.old.items ++ row ∷ []) }
    ensures ids { OnOk result (ids.new ≡ id_key row ∷ ids.old) }
    ensures uses { OnOk result (uses.new ≡ use_key row ∷ uses.old) }
    ensures waiting { OnOk result (waiting.new.items ≡ waiting.old.items ++ waiting_row (length rows.old.items) row ∷ []) }
{
    push_beside(ids, uses, waiting, rows.len(), &row)?;
    rows.push(row)?;
    Ok(())
}

/// What stands beside the rows of a call that takes this place.
fn push_beside(
    ids: &mut Places,
    uses: &mut Places,
    waiting: &mut Vec<WaitingRow>,
    place: usize,
    row: &CallRow,
) -> Result<(), NoMemory>
    ensures ids { OnOk result (ids.new ≡ id_key row.now ∷ ids.old) }
    ensures uses { OnOk result (uses.new ≡ use_key row.now ∷ uses.old) }
    ensures waiting { OnOk result (waiting.new.items ≡ waiting.old.items ++ waiting_row place row.now ∷ []) }
{
    ids.push(call_key(row.id()))?;
    uses.push(use_key(row))?;
    waiting.push(waiting_row(place, row))?;
    Ok(())
}

/// Forgets all calls: what is left where memory has run out.
fn forget_all(
    rows: &mut Vec<CallRow>,
    ids: &mut Places,
    uses: &mut Places,
    waiting: &mut Vec<WaitingRow>,
)
    ensures rows { rows.new.items ≡ [] }
    ensures ids { ids.new ≡ [] }
    ensures uses { uses.new ≡ [] }
    ensures waiting { waiting.new.items ≡ [] }
{
    *ids = Places::new(*rows.allocator());
    *uses = Places::new(*rows.allocator());
    rows.clear();
    waiting.clear();
}

/// One request more of a call was answered.
pub(crate) fn answer_at(
    rows: &mut Vec<CallRow>,
    place: usize,
    answer: Answer,
) -> Result<(), NoMemory>
    requires { place < length rows.old.items }
    ensures ok { (k : CallSoFar) → slice_get rows.old.items place ≡ Some k → OnOk result (rows.new.items ≡ slice_set rows.old.items place (with_answer answer k)) }
    ensures err { OnErr result (rows.new.items ≡ rows.old.items) }
{
    let row = &mut rows[place];
    row.answer(answer)
}

/// The request of this number was answered, maybe again.
pub(crate) fn look_at(
    rows: &mut Vec<CallRow>,
    place: usize,
    request: u16,
    answer: Answer,
) -> Result<(), NoMemory>
    requires { place < length rows.old.items }
    ensures ok { (k : CallSoFar) → slice_get rows.old.items place ≡ Some k → OnOk result (rows.new.items ≡ slice_set rows.old.items place (with_last_answer request answer k)) }
    ensures err { (k : CallSoFar) → slice_get rows.old.items place ≡ Some k → OnErr result (rows.new.items ≡ slice_set rows.old.items place (with_earlier request k)) }
{
    let row = &mut rows[place];
    row.look(request, answer)
}

/// An open of a call was granted.
pub(crate) fn grant_at(
    rows: &mut Vec<CallRow>,
    place: usize,
    descriptor: Descriptor,
    answer: Answer,
) -> Result<(), NoMemory>
    requires { place < length rows.old.items }
    ensures ok { (k : CallSoFar) → slice_get rows.old.items place ≡ Some k → OnOk result (rows.new.items ≡ slice_set rows.old.items place (with_grant descriptor answer k)) }
    ensures err { OnErr result (rows.new.items ≡ rows.old.items) }
{
    let row = &mut rows[place];
    row.grant(descriptor, answer)
}

/// A call waits no more.
pub(crate) fn end_at(rows: &mut Vec<CallRow>, waiting: &mut Vec<WaitingRow>, place: usize)
    requires { place < length rows.old.items }
    ensures rows { (k : CallSoFar) → slice_get rows.old.items place ≡ Some k → rows.new.items ≡ slice_set rows.old.items place (replied k) }
    ensures waiting { waiting.new.items ≡ filter (λ w. not (w.place == place)) waiting.old.items }
{
    let row = &mut rows[place];
    row.end();
    forget(waiting, place);
}

/// None of a site's calls waits any more.
pub(crate) fn end_all_at(rows: &mut Vec<CallRow>, waiting: &mut Vec<WaitingRow>, site: u8)
    requires { waiting.old.items ≡ waiting_from 0 rows.old.items }
    ensures rows { rows.new.items ≡ map (λ k. cond (is_call_at site k) (replied k) k) rows.old.items }
    ensures waiting { waiting.new.items ≡ waiting_from 0 rows.new.items }
{
    while let Some(place) = first_at(waiting.as_slice(), site) {
        end_at(rows, waiting, place);
    }
}

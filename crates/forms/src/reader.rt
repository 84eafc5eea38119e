// Reads records of a form into a table.
ghost use Rattle.std.specs.Prelude.{◌≡◌, true, false, MatchResult};
ghost use Rattle.lists.specs.View.{lists_of};
ghost use Rattle.forms.specs.Forms.{first_cause, causes, fault_of};
ghost use Rattle.forms.specs.Reading.{Checked, Took, Whole, Refused};

use crate::form::RecordForm;
use crate::rules::{is_full, is_in_place, is_repeated, is_wide_first, is_wide_second, put};
use lists::table::Table;
use records::bytes::{is_bad_length, quads};
use records::fault::{Ground, ReadFault, RecordFault, Refusal};
use records::record::{Kind, Record};
use std::alloc::Global;

// Refuses where there is a ground to.
fn refuse_if(there: bool, refusal: Refusal, byte: u8) -> Result<(), Ground>
    ensures { MatchResult result (λ _. there ≡ false) (λ g. (there ≡ true) × (g ≡ record { refusal = refusal; byte = byte })) }
{
    if there {
        return Err(refusal.at(byte));
    }
    Ok(())
}

// Refuses a record of the kind for the first cause that is there.
fn examine<F: RecordForm>(table: &Table, kind: Kind, r: Record) -> Result<(), Ground>
    ensures { MatchResult result (λ _. first_cause (causes F.RecordForm.rules kind (lists_of table.now) r) ≡ None) (λ g. first_cause (causes F.RecordForm.rules kind (lists_of table.now) r) ≡ Some g) }
{
    let entry = F::entry(kind, r);
    let uses = F::uses(kind);
    refuse_if(uses < 1 && r.one != 0, Refusal::Form, 1)?;
    refuse_if(uses < 2 && r.two != 0, Refusal::Form, 2)?;
    refuse_if(r.three != 0, Refusal::Form, 3)?;
    refuse_if(!is_in_place(table, kind), Refusal::Place, 0)?;
    refuse_if(is_full(table, kind, entry.first), Refusal::Limit, 0)?;
    refuse_if(is_wide_first(table, kind, entry), Refusal::Range, 1)?;
    refuse_if(is_wide_second(table, kind, entry), Refusal::Range, uses)?;
    refuse_if(is_repeated(table, kind, entry.first), Refusal::Repeated, 1)
}

// The kind of the record `index`, or what is wrong with it.
fn check<F: RecordForm>(table: &Table, index: usize, r: Record) -> Result<Kind, RecordFault>
    ensures { Checked F.RecordForm.rules (lists_of table.now) index r result }
{
    let kind = F::kind_of(r.kind).ok_or(RecordFault {
        index,
        ground: Refusal::Form.at(0),
    })?;
    examine::<F>(table, kind, r).map_err(|ground| RecordFault { index, ground })?;
    Ok(kind)
}

// Takes up the record `index`.
fn take<F: RecordForm>(
    table: &mut Table,
    heap: Global,
    index: usize,
    r: Record,
) -> Result<(), ReadFault>
    ensures { Took F.RecordForm.rules (lists_of table.old) index r (lists_of table.new) result }
{
    let kind = check::<F>(table, index, r)?;
    put(table, heap, kind, F::entry(kind, r))?;
    Ok(())
}

// The table that the bytes mean, or why they are refused.
pub fn read_table<F: RecordForm>(heap: Global, bytes: &[u8]) -> Result<Table, ReadFault>
    ensures { MatchResult result (λ t. Whole F.RecordForm.rules bytes.now (lists_of t)) (λ e. Refused (fault_of F.RecordForm.rules) bytes.now e) }
{
    if is_bad_length(bytes.len()) {
        return Err(ReadFault::Length);
    }
    let mut table = Table::new(heap);
    for (index, quad) in quads(bytes).iter().enumerate() {
        take::<F>(&mut table, heap, index, Record::from(*quad))?;
    }
    Ok(table)
}

// The order of the kinds, the limits, the ranges and repeated variables.
ghost use Rattle.std.specs.Prelude.{◌≡◌, ◌≤◌, length, map, sum, OnOk};
ghost use Rattle.lists.specs.Puts.{put as with_entry};
ghost use Rattle.lists.specs.View.{lists_of};
ghost use Rattle.forms.specs.Rules.{in_place, full, own_list_lem, repeated, wide_first, wide_second};

use crate::form::Entry;
use lists::lookup::value_in;
use lists::table::{Pair, Table, Variable};
use records::record::Kind;
use std::alloc::{AllocError, Global};

// How many facts the variables have.
fn facts(variables: &[Variable]) -> usize
    requires { length variables.now ≤ 64 }
    ensures { result ≡ sum (map (λ (v : _). v.size) variables.now) }
{
    variables
        .iter()
        .map(|variable| usize::from(variable.size))
        .sum()
}

// Whether a record of the kind can stand here.
pub(crate) fn is_in_place(table: &Table, kind: Kind) -> bool
    ensures { result ≡ in_place kind (lists_of table.now) }
{
    match kind {
        Kind::Variable => table.goals.is_empty() && table.operators.is_empty(),
        Kind::Goal => !table.variables.is_empty() && table.operators.is_empty(),
        Kind::Action => !table.variables.is_empty(),
        Kind::Condition => table.latest().is_some_and(|action| action.effects.is_empty()
            && action.deletes.is_empty()),
        Kind::Effect => table
            .latest()
            .is_some_and(|action| action.deletes.is_empty()),
        Kind::Delete => !table.operators.is_empty(),
    }
}

// Whether one more record of the kind, of this size where it is a variable, would pass a limit.
pub(crate) fn is_full(table: &Table, kind: Kind, size: u8) -> bool
    ensures { result ≡ full kind size (lists_of table.now) }
{
    match kind {
        Kind::Variable => table.variables() >= 64
            || facts(table.variables.as_slice()) > 256 - usize::from(size),
        Kind::Goal => false,
        Kind::Action => table.actions() >= 512,
        Kind::Condition => table
            .latest()
            .is_some_and(|action| action.conditions.len() >= 8),
        Kind::Effect | Kind::Delete => table.latest().is_some_and(|action| {
            action.deletes.len() >= 8usize.saturating_sub(action.effects.len())
        }),
    }
}

// Whether a size, or a variable, is out of range.
pub(crate) fn is_wide_first(table: &Table, kind: Kind, entry: Entry) -> bool
    ensures { result ≡ wide_first kind entry.first (lists_of table.now) }
{
    match kind {
        Kind::Variable => entry.first == 0 || entry.first > 16,
        Kind::Action => false,
        Kind::Goal | Kind::Condition | Kind::Effect | Kind::Delete => {
            usize::from(entry.first) >= table.variables()
        }
    }
}

// Whether a start value, or a value, is out of range.
pub(crate) fn is_wide_second(table: &Table, kind: Kind, entry: Entry) -> bool
    ensures { result ≡ wide_second kind entry.first entry.second (lists_of table.now) }
{
    match kind {
        Kind::Variable => entry.second >= entry.first,
        Kind::Action => false,
        Kind::Goal | Kind::Condition | Kind::Effect | Kind::Delete => {
            usize::from(entry.second) >= table.size(usize::from(entry.first))
        }
    }
}

// The pairs that a record of the kind joins.
fn own_list(table: &Table, kind: Kind) -> &[Pair]
    ensures { result.now ≡ own_list_lem kind (lists_of table.now) }
{
    match kind {
        Kind::Variable | Kind::Action => &[],
        Kind::Goal => table.goals.as_slice(),
        Kind::Condition => table
            .latest()
            .map_or(&[], |action| action.conditions.as_slice()),
        Kind::Effect => table
            .latest()
            .map_or(&[], |action| action.effects.as_slice()),
        Kind::Delete => table
            .latest()
            .map_or(&[], |action| action.deletes.as_slice()),
    }
}

// Whether the list that a record of the kind joins names the variable.
pub(crate) fn is_repeated(table: &Table, kind: Kind, variable: u8) -> bool
    ensures { result ≡ repeated kind variable (lists_of table.now) }
{
    value_in(own_list(table, kind), usize::from(variable)).is_some()
}

// Puts an entry of the kind into the table.
pub(crate) fn put(
    table: &mut Table,
    heap: Global,
    kind: Kind,
    entry: Entry,
) -> Result<(), AllocError>
    ensures { OnOk result (lists_of table.new ≡ with_entry kind entry.first entry.second (lists_of table.old)) }
{
    match kind {
        Kind::Variable => table.add_variable(entry.first, entry.second),
        Kind::Goal => table.add_goal(entry.first, entry.second),
        Kind::Action => table.add_action(heap),
        Kind::Condition => table.add_condition(entry.first, entry.second),
        Kind::Effect => table.add_effect(entry.first, entry.second),
        Kind::Delete => table.add_delete(entry.first, entry.second),
    }
}

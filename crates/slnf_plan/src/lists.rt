//! Lists of values.
ghost use Rattle.std.specs.Prelude.{List, [], map, decimal};
ghost use Rattle.toml.specs.View.{view, items_view};
ghost use Rattle.slnf_plan.specs.Refusals.{Gives, GoesUnder};
ghost use Rattle.slnf_plan.specs.Tables.{counted, counted_items, elements, list_of};

use crate::count::Count;
use crate::kinds::{Kind, under};
use crate::refusal::{Cause, Fault};
use itoa::Buffer;
use slnf_base::Row;
use std::alloc::Global;
use toml::Value;

/// A list with elements of one kind.
#[derive(Drop)]
pub(crate) struct ListOf<K> {
    pub count: Count,
    pub element: K,
}

impl<K: Kind> Kind for ListOf<K> {
    type Item = Row<K::Item>;

    ghost Plain = { List K.Plain };

    ghost plain = { map K.plain };

    ghost reads = { λ kind d. list_of kind.count (K.reads kind.element) d };

    fn read(&self, alloc: Global, value: &Value) -> Result<Row<K::Item>, Fault> {
        let values = counted(self.count, value)?;
        Ok(Row::from_vec(elements(alloc, &self.element, values)?))
    }
}

/// The elements of a list, if it has as many as it may have.
#[tactic(auto, using(crate::proofs::Items::item_count_view))]
pub(crate) fn counted(count: Count, value: &Value) -> Result<&[Value], Fault>
    ensures { Gives (λ vs. items_view vs.now) result (counted_items count (view value.now)) }
{
    let values = match value.as_array() {
        None => return Err(Fault::of(Cause::WrongType)),
        Some(values) => values.as_slice(),
    };
    counted_as(count, values.len())?;
    Ok(values)
}

fn counted_as(count: Count, len: usize) -> Result<(), Fault>
    ensures { Gives (λ u. u) result (counted count len) }
{
    if len == 0 {
        return match count.empty {
            None => Ok(()),
            Some(cause) => Err(Fault::of(cause)),
        };
    }
    match count.most {
        Some(most) if most < len => Err(Fault::of(Cause::OutOfRange)),
        _ => Ok(()),
    }
}

// Each element in order.
fn elements<K: Kind>(alloc: Global, element: &K, values: &[Value]) -> Result<Vec<K::Item>, Fault>
    ensures { Gives (λ v. map K.plain v.items) result (elements (λ _. K.reads element.now) [] (items_view values.now)) }
{
    let mut items = Vec::new(alloc);
    for value in values {
        let item = under_place(alloc, items.len(), element.read(alloc, value))?;
        items.push(item)?;
    }
    Ok(items)
}

/// What was read of the value at this place of a list.
pub(crate) fn under_place<T>(
    alloc: Global,
    place: usize,
    read: Result<T, Fault>,
) -> Result<T, Fault>
    ensures { GoesUnder (decimal place) read result }
{
    let mut buffer = Buffer::new();
    under(alloc, buffer.format(place), read)
}

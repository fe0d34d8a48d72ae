//! What a key has to have as its value, and how a table's keys are read.
ghost use Rattle.std.specs.Prelude.{◌≡◌, Result, map, option_map};
ghost use Rattle.std.specs.List.{list_any};
ghost use Rattle.std.specs.Str.{bytes_eq};
ghost use Rattle.toml.specs.Data.{Data, get_member};
ghost use Rattle.toml.specs.View.{view, table_view};
ghost use Rattle.slnf_plan.specs.declared.refusal.Refusal.{Refusal};
ghost use Rattle.slnf_plan.specs.Refusals.{Gives, GoesUnder};
ghost use Rattle.slnf_plan.specs.Tables.{known, demanded, required, optional, defaulted, as_members};

use crate::refusal::{Cause, Fault};
use std::alloc::Global;
use toml::{Table, Value};

/// What a value has to be, and what it is read as.
pub(crate) trait Kind {
    type Item: Drop;

    /// What a clause sees of an item.
    ghost Plain: { Type 0 };

    ghost plain: { Self.Item → Plain };

    /// What a value is read as, or its first refusal.
    ghost reads: { Self → Data → Result Plain Refusal };

    fn read(&self, alloc: Global, value: &Value) -> Result<Self::Item, Fault>
        ensures { Gives plain result (reads self.now (view value.now)) };
}

/// The value at a key that has to be there.
pub(crate) fn required<K: Kind>(
    alloc: Global,
    table: &Table,
    key: &str,
    kind: &K,
) -> Result<K::Item, Fault>
    ensures { Gives K.plain result (required key.now (K.reads kind.now) (table_view table.now)) }
{
    demanded(alloc, table, key, Cause::MissingKey, kind)
}

/// The value at a key that has to be there, else this rule is broken.
pub(crate) fn demanded<K: Kind>(
    alloc: Global,
    table: &Table,
    key: &str,
    absent: Cause,
    kind: &K,
) -> Result<K::Item, Fault>
    ensures { Gives K.plain result (demanded absent key.now (K.reads kind.now) (table_view table.now)) }
{
    match value_at(table, key) {
        None => Err(Fault::of(absent).under(alloc, key)),
        Some(value) => under(alloc, key, kind.read(alloc, value)),
    }
}

/// The value at a key, if the key is there.
pub(crate) fn optional<K: Kind>(
    alloc: Global,
    table: &Table,
    key: &str,
    kind: &K,
) -> Result<Option<K::Item>, Fault>
    ensures { Gives (option_map K.plain) result (optional key.now (K.reads kind.now) (table_view table.now)) }
{
    match value_at(table, key) {
        None => Ok(None),
        Some(value) => Ok(Some(under(alloc, key, kind.read(alloc, value))?)),
    }
}

/// The value at a key, or this one if the key isn't there.
pub(crate) fn defaulted<K: Kind>(
    alloc: Global,
    table: &Table,
    key: &str,
    kind: &K,
    default: K::Item,
) -> Result<K::Item, Fault>
    ensures { Gives K.plain result (defaulted (K.plain default) key.now (K.reads kind.now) (table_view table.now)) }
{
    match value_at(table, key) {
        None => Ok(default),
        Some(value) => under(alloc, key, kind.read(alloc, value)),
    }
}

fn value_at<'a>(table: &'a Table, key: &str) -> Option<&'a Value>
    ensures { option_map (λ v. view v.now) result ≡ get_member key.now (table_view table.now) }
{
    table.get(key)
}

/// What was read of the value at this key or place.
pub(crate) fn under<T>(alloc: Global, step: &str, read: Result<T, Fault>) -> Result<T, Fault>
    ensures { GoesUnder step.now read result }
{
    match read {
        Ok(item) => Ok(item),
        Err(fault) => Err(fault.under(alloc, step)),
    }
}

/// The table that a value is.
pub(crate) fn as_table(value: &Value) -> Result<&Table, Fault>
    ensures { Gives (λ t. table_view t.now) result (as_members (view value.now)) }
{
    match value.as_table() {
        Some(table) => Ok(table),
        None => Err(Fault::of(Cause::WrongType)),
    }
}

/// Refuses the first key that isn't listed.
pub(crate) fn known(alloc: Global, table: &Table, listed: &[&str]) -> Result<(), Fault>
    ensures { Gives (λ u. u) result (known (map (λ k. k.now) listed.now) (table_view table.now)) }
{
    for key in table.keys() {
        if !is_listed(listed, key.as_str()) {
            return Err(Fault::of(Cause::UnknownKey).under(alloc, key.as_str()));
        }
    }
    Ok(())
}

fn is_listed(listed: &[&str], key: &str) -> bool
    ensures { result ≡ list_any (λ l. bytes_eq l.now key.now) listed.now }
{
    listed.iter().any(|l| *l == key)
}

//! Which keys the tables of a mount file have, and of which types.

ghost use Rattle.std.specs.Prelude.{◌≡◌, map};
ghost use Rattle.mount_file.specs.Keys.{is_one_of, has_only, has_key, may_have, is_integer, is_string, is_boolean};
ghost use Rattle.mount_file.specs.Keys.{is_array_of, is_table_of, has_mount_keys, has_task_keys, has_keys};
ghost use Rattle.toml.specs.View.{view, table_view};

use crate::fields::value_at;
use toml::{Table, Value};

/// Whether the document has its four keys, and each table in it those of its kind, each of its type.
pub(crate) fn has_keys(document: &Table) -> bool
    ensures { result ≡ has_keys (table_view document.now) }
{
    has_only(document, &["entries", "seed", "mount", "task"])
        && has_integer(document, "entries")
        && has_string(document, "seed")
        && has_mounts(document, "mount")
        && has_tasks(document, "task")
}

/// Whether the table is that of a mount.
fn has_mount_keys(table: &Table) -> bool
    ensures { result ≡ has_mount_keys (table_view table.now) }
{
    has_only(table, &["at", "folder", "write"])
        && has_string(table, "at")
        && has_string(table, "folder")
        && may_have_boolean(table, "write")
}

/// Whether the table is that of a task.
fn has_task_keys(table: &Table) -> bool
    ensures { result ≡ has_task_keys (table_view table.now) }
{
    has_only(table, &["path", "args", "env"])
        && has_string(table, "path")
        && may_have_strings(table, "args")
        && may_have_strings(table, "env")
}

/// Whether a key is one of these.
fn is_one_of(keys: &[&str], key: &str) -> bool
    ensures { result ≡ is_one_of (map (λ k. k.now) keys.now) key.now }
{
    keys.iter().any(|known| *known == key)
}

/// Whether a table has no keys but these.
fn has_only(table: &Table, keys: &[&str]) -> bool
    ensures { result ≡ has_only (map (λ k. k.now) keys.now) (table_view table.now) }
{
    table.keys().all(|key| is_one_of(keys, key.as_str()))
}

/// Whether the key is there, with an integer.
fn has_integer(table: &Table, key: &str) -> bool
    ensures { result ≡ has_key is_integer key.now (table_view table.now) }
{
    match value_at(table, key) {
        Some(value) => value.is_integer(),
        None => false,
    }
}

/// Whether the key is there, with a string.
fn has_string(table: &Table, key: &str) -> bool
    ensures { result ≡ has_key is_string key.now (table_view table.now) }
{
    match value_at(table, key) {
        Some(value) => value.is_str(),
        None => false,
    }
}

/// Whether the key is there, with an array of tables of mounts.
fn has_mounts(table: &Table, key: &str) -> bool
    ensures { result ≡ has_key (is_array_of (is_table_of has_mount_keys)) key.now (table_view table.now) }
{
    match value_at(table, key) {
        Some(value) => are_mounts(value),
        None => false,
    }
}

/// Whether the key is there, with an array of tables of tasks.
fn has_tasks(table: &Table, key: &str) -> bool
    ensures { result ≡ has_key (is_array_of (is_table_of has_task_keys)) key.now (table_view table.now) }
{
    match value_at(table, key) {
        Some(value) => are_tasks(value),
        None => false,
    }
}

/// Whether the key is left out, or has a boolean.
fn may_have_boolean(table: &Table, key: &str) -> bool
    ensures { result ≡ may_have is_boolean key.now (table_view table.now) }
{
    match value_at(table, key) {
        Some(value) => value.is_bool(),
        None => true,
    }
}

/// Whether the key is left out, or has an array of strings.
fn may_have_strings(table: &Table, key: &str) -> bool
    ensures { result ≡ may_have (is_array_of is_string) key.now (table_view table.now) }
{
    match value_at(table, key) {
        Some(value) => are_strings(value),
        None => true,
    }
}

fn are_strings(value: &Value) -> bool
    ensures { result ≡ is_array_of is_string (view value.now) }
{
    match value {
        Value::Array(items) => items.iter().all(|item| item.is_str()),
        _ => false,
    }
}

fn are_mounts(value: &Value) -> bool
    ensures { result ≡ is_array_of (is_table_of has_mount_keys) (view value.now) }
{
    match value {
        Value::Array(items) => items.iter().all(|item| is_mount(item)),
        _ => false,
    }
}

fn is_mount(value: &Value) -> bool
    ensures { result ≡ is_table_of has_mount_keys (view value.now) }
{
    match value {
        Value::Table(table) => has_mount_keys(table),
        _ => false,
    }
}

fn are_tasks(value: &Value) -> bool
    ensures { result ≡ is_array_of (is_table_of has_task_keys) (view value.now) }
{
    match value {
        Value::Array(items) => items.iter().all(|item| is_task(item)),
        _ => false,
    }
}

fn is_task(value: &Value) -> bool
    ensures { result ≡ is_table_of has_task_keys (view value.now) }
{
    match value {
        Value::Table(table) => has_task_keys(table),
        _ => false,
    }
}

//! Mounts and tasks, from tables that have their keys.

ghost use Rattle.std.specs.Prelude.{◌≡◌, [], ◌∷◌, option_and_then, IfOk};
ghost use Rattle.mount_file.specs.Read.{Gives};
ghost use Rattle.mount_file.specs.Tables.{each_in, texts_at, write_at, mount_in, task_in, some_tasks, mounts_in};
ghost use Rattle.toml.specs.Data.{as_table};
ghost use Rattle.toml.specs.View.{view, items_view, table_view};

use crate::fields::{integer_at, items_at, items_of, string_at, value_at};
use crate::mounts::{Mount, MountFault, Mounts, Program};
use crate::values::{entries_in, folder_in, image_name_in, place_in, seed_in, texts_in};
use sn_base::{List, Memory};
use sn_text::{Name, Text};
use std::alloc::Global;
use toml::{Table, Value};

/// The texts at a key, or these where it is left out.
fn texts_at(
    alloc: Global,
    table: &Table,
    key: &str,
    missing: List<Text>,
) -> Result<List<Text>, MountFault>
    ensures { Gives (texts_at key.now missing (table_view table.now)) result }
{
    let Some(value) = value_at(table, key) else {
        return Ok(missing);
    };
    match items_of(value) {
        Some(items) => texts_in(alloc, items),
        None => Err(MountFault::Range),
    }
}

/// Whether a mount may be written: not where the key is left out.
fn write_at(table: &Table) -> Option<bool>
    ensures { result ≡ write_at (table_view table.now) }
{
    match value_at(table, "write") {
        Some(value) => value.as_bool(),
        None => Some(false),
    }
}

/// The mount of a table: `at`, `folder`, and perhaps `write`.
fn mount_in(alloc: Global, table: &Table) -> Result<Mount, MountFault>
    ensures { Gives (mount_in (table_view table.now)) result }
{
    let Some(at) = string_at(table, "at") else {
        return Err(MountFault::Range);
    };
    let at = place_in(alloc, at)?;
    let Some(folder) = string_at(table, "folder") else {
        return Err(MountFault::Range);
    };
    let folder = folder_in(alloc, folder)?;
    let Some(write) = write_at(table) else {
        return Err(MountFault::Range);
    };
    Ok(Mount { at, folder, write })
}

/// The path of what has that name in `/`.
fn path_to(alloc: Global, name: &Name) -> Result<Text, Memory>
    ensures { IfOk result (λ path. path ≡ 47 ∷ name.now) }
{
    let mut path = Text::from_slice(alloc, b"/")?;
    path.extend(name.as_bytes())?;
    Ok(path)
}

/// The task of a table: where `args` is left out its path is its one argument, and where `env` is it has no
/// environment.
fn task_in(alloc: Global, table: &Table) -> Result<Program, MountFault>
    ensures { Gives (task_in (table_view table.now)) result }
{
    let Some(path) = string_at(table, "path") else {
        return Err(MountFault::Range);
    };
    let name = image_name_in(alloc, path)?;
    let mut alone = List::new(alloc);
    alone.push(path_to(alloc, &name)?)?;
    let args = texts_at(alloc, table, "args", alone)?;
    let env = texts_at(alloc, table, "env", List::new(alloc))?;
    Ok(Program { name, args, env })
}

/// The mount of an item of `mount`.
fn mount_of(alloc: Global, item: &Value) -> Result<Mount, MountFault>
    ensures { Gives (option_and_then mount_in (as_table (view item.now))) result }
{
    match item.as_table() {
        Some(table) => mount_in(alloc, table),
        None => Err(MountFault::Range),
    }
}

/// The task of an item of `task`.
fn task_of(alloc: Global, item: &Value) -> Result<Program, MountFault>
    ensures { Gives (option_and_then task_in (as_table (view item.now))) result }
{
    match item.as_table() {
        Some(table) => task_in(alloc, table),
        None => Err(MountFault::Range),
    }
}

/// The mounts of an array, item by item.
fn each_mount(alloc: Global, items: &[Value]) -> Result<List<Mount>, MountFault>
    ensures { Gives (each_in mount_in (items_view items.now)) result }
{
    let mut mounts = List::new(alloc);
    for item in items {
        mounts.push(mount_of(alloc, item)?)?;
    }
    Ok(mounts)
}

/// The tasks of an array, item by item.
fn each_task(alloc: Global, items: &[Value]) -> Result<List<Program>, MountFault>
    ensures { Gives (each_in task_in (items_view items.now)) result }
{
    let mut tasks = List::new(alloc);
    for item in items {
        tasks.push(task_of(alloc, item)?)?;
    }
    Ok(tasks)
}

/// The tasks of an array: one or more.
fn some_tasks(alloc: Global, items: &[Value]) -> Result<List<Program>, MountFault>
    ensures { Gives (option_and_then some_tasks (each_in task_in (items_view items.now))) result }
{
    let tasks = each_task(alloc, items)?;
    if tasks.is_empty() {
        Err(MountFault::Range)
    } else {
        Ok(tasks)
    }
}

/// What a document with all its keys says.
pub(crate) fn mounts_in(alloc: Global, document: &Table) -> Result<Mounts, MountFault>
    ensures { Gives (mounts_in (table_view document.now)) result }
{
    let Some(entries) = integer_at(document, "entries") else {
        return Err(MountFault::Range);
    };
    let Some(entries) = entries_in(entries) else {
        return Err(MountFault::Range);
    };
    let Some(seed) = string_at(document, "seed") else {
        return Err(MountFault::Range);
    };
    let seed = seed_in(alloc, seed)?;
    let Some(mounts) = items_at(document, "mount") else {
        return Err(MountFault::Range);
    };
    let mounts = each_mount(alloc, mounts)?;
    let Some(tasks) = items_at(document, "task") else {
        return Err(MountFault::Range);
    };
    let tasks = some_tasks(alloc, tasks)?;
    Ok(Mounts {
        entries,
        seed,
        mounts,
        tasks,
    })
}

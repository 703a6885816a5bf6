//! What an entry touched of what is open, and what a call touches of it, by what it is to do.

ghost use Rattle.std.specs.Prelude.{◌≡◌, false};
ghost use Rattle.file_changes.specs.Changes.{files_after};
ghost use Rattle.parked_tasks.specs.Untouched.{FilesMove, changes_list, files_left};
ghost use Rattle.parked_tasks.specs.Touched.{description_at, pipe_of, touched_with};

use fd_table::Object;
use file_changes::FileChange;
use kernel_calls::Effect;
use kernel_model::OpenFiles;
use sn_base::Made;

/// What an entry touched of what is open: a descriptor table, open file descriptions and pipes, by name. What moves
/// bytes leaves all tables as they are.
#[derive(Clone, Copy)]
pub struct Touched {
    pub table: Option<Made>,
    pub descriptions: UpToTwo,
    pub pipes: UpToTwo,
}

/// Up to two names.
#[derive(Clone, Copy)]
pub struct UpToTwo {
    pub first: Option<Made>,
    pub second: Option<Made>,
}

/// What a call with this effect may change of what is open, where it leaves the task list.
pub fn touched_by(effect: &Effect, files: &OpenFiles) -> Option<Touched>
    ensures { changes_list effect.now ≡ false → FilesMove result files.now (files_left effect.now files.now) }
{
    match effect {
        Effect::ChangesFiles { table, change } => touched_in(*table, *change, files),
        Effect::Nothing => None,
        Effect::EndsGroup(_) => None,
        Effect::EndsTask { .. } => None,
        Effect::SetsClear { .. } => None,
        Effect::Wakes { .. } => None,
        Effect::Reaps { .. } => None,
    }
}

/// What a change touches, of a caller of that descriptor table.
fn touched_in(table: Made, change: FileChange, files: &OpenFiles) -> Option<Touched>
    ensures { FilesMove result files.now (files_after change table files.now) }
{
    match change {
        FileChange::Nothing => None,
        FileChange::Gives { from, number, .. } => Some(touched_with(
            table,
            description_at(table, from, files),
            description_at(table, number, files),
            files,
        )),
        FileChange::Marks { .. } => Some(touched_with(table, None, None, files)),
        FileChange::SetsStatus { description, .. } => {
            Some(touched_with(table, Some(description), None, files))
        }
        FileChange::Closes { number } => Some(touched_with(
            table,
            None,
            description_at(table, number, files),
            files,
        )),
    }
}

/// A descriptor table, an open file description that is changed, and one that has a descriptor fewer, with the pipe of
/// which it is an end.
fn touched_with(
    table: Made,
    changed: Option<Made>,
    dropped: Option<Made>,
    files: &OpenFiles,
) -> Touched
    ensures { result ≡ touched_with table changed dropped files.now }
{
    Touched {
        table: Some(table),
        descriptions: UpToTwo {
            first: changed,
            second: dropped,
        },
        pipes: UpToTwo {
            first: pipe_of(dropped, files),
            second: None,
        },
    }
}

/// The open file description of a number of a descriptor table, where it is open.
fn description_at(table: Made, number: u32, files: &OpenFiles) -> Option<Made>
    ensures { result ≡ description_at table number files.now }
{
    let numbers = files.tables.get(table.place, table.index)?;
    let descriptor = numbers.get(number)?;
    Some(descriptor.description)
}

/// The pipe of which an open file description is an end.
fn pipe_of(description: Option<Made>, files: &OpenFiles) -> Option<Made>
    ensures { result ≡ pipe_of description files.now }
{
    let name = description?;
    let file = files.descriptions.get(name.place, name.index)?;
    match file.description.object {
        Object::PipeEnd { pipe, .. } => Some(pipe),
        Object::Node(_) => None,
        Object::Console => None,
        Object::EmptyInput => None,
    }
}

//! Whether the record of an opening is of a mount file.

ghost use Rattle.std.specs.Prelude.{◌≡◌, ◌+◌, ◌<◌, ◌^◌, nat_eq, map};
ghost use Rattle.std.specs.Str.{bytes_eq};
ghost use Rattle.mount_file.specs.declared.mounts.Program.{Program as AProgram};
ghost use Rattle.kernel_model.specs.declared.opening.OpenedTask.{OpenedTask as AnOpenedTask};
ghost use Rattle.kernel_model.specs.files.Numbers.{count_up};
ghost use lib.Pointwise.{pointwise};
ghost use Rattle.kernel_model.specs.opening.Records.{begins, same_flag, same_folder, same_mount};
ghost use Rattle.kernel_model.specs.opening.Records.{is_of};

use kernel_model::{OpenedTask, Opening};
use mount_file::{Mount, Mounts, Program, is_same_place};
use sn_text::{Folder, Text, same_names};

/// Whether the record is of these mounts and tasks, with the roots numbered 1 up.
pub(crate) fn is_of(opening: &Opening, mounts: &Mounts) -> bool
    ensures { result ≡ is_of mounts.now opening.now }
{
    let listed = mounts.mounts.as_slice();
    same_mounts(opening.mounts.as_slice(), listed)
        && are_numbers(opening.roots.as_slice(), 1, listed.len() as u64)
        && begin_words(opening.tasks.as_slice(), mounts.tasks.as_slice())
}

fn same_mounts(a: &[Mount], b: &[Mount]) -> bool
    ensures { result ≡ pointwise same_mount a.now b.now }
{
    match (a, b) {
        ([], []) => true,
        ([x, xs @ ..], [y, ys @ ..]) => same_mount(x, y) && same_mounts(xs, ys),
        _ => false,
    }
}

fn same_mount(a: &Mount, b: &Mount) -> bool
    ensures { result ≡ same_mount a.now b.now }
{
    is_same_place(&a.at, &b.at) && same_folder(&a.folder, &b.folder) && same_flag(a.write, b.write)
}

fn same_folder(a: &Folder, b: &Folder) -> bool
    ensures { result ≡ same_folder a.now b.now }
{
    same_flag(a.is_rooted(), b.is_rooted()) && same_names(a.route().names(), b.route().names())
}

fn same_flag(a: bool, b: bool) -> bool
    ensures { result ≡ same_flag a b }
{
    a == b
}

fn same_words(a: &[Text], b: &[Text]) -> bool
    ensures { result ≡ pointwise bytes_eq a.now b.now }
{
    match (a, b) {
        ([], []) => true,
        ([x, xs @ ..], [y, ys @ ..]) => x.as_bytes() == y.as_bytes() && same_words(xs, ys),
        _ => false,
    }
}

/// Whether these are so many numbers from the first on, ascending.
fn are_numbers(numbers: &[u64], first: u64, count: u64) -> bool
    requires { first + count < 2 ^ 64 }
    ensures { result ≡ pointwise nat_eq numbers.now (count_up first count) }
{
    match numbers {
        [] => count == 0,
        [number, rest @ ..] => {
            if count == 0 {
                return false;
            }
            if *number != first {
                return false;
            }
            are_numbers(rest, first + 1, count - 1)
        }
    }
}

/// Whether the words of tasks are the arguments of the first of the programs.
fn begin_words(tasks: &[OpenedTask], programs: &[Program]) -> bool
    ensures { result ≡ begins (pointwise bytes_eq) (map (λ (o : AnOpenedTask). o.words) tasks.now)
        (map (λ (p : AProgram). p.args) programs.now) }
{
    let [first, others @ ..] = tasks else {
        return true;
    };
    let [program, rest @ ..] = programs else {
        return false;
    };
    same_words(first.words.as_slice(), program.args.as_slice()) && begin_words(others, rest)
}

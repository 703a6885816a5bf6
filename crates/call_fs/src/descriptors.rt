//! dup, dup3, fcntl, ioctl and close.

ghost use Rattle.std.specs.Prelude.{◌≡◌, ◌≢◌, None, option_copied};
ghost use Rattle.std.specs.FinMap as map;
ghost use Rattle.fd_table.specs.Tables.{dup3_fault};
ghost use Rattle.fd_table.specs.declared.descriptor.Descriptor.{Descriptor as ADescriptor};
ghost use Rattle.kernel_model.specs.declared.caller.Caller.{Caller as ACaller};
ghost use Rattle.kernel_model.specs.declared.kernel.Kernel.{Kernel as AKernel};
ghost use Rattle.kernel_model.specs.calls.Descriptors.{by_command, close_row, dup3_row, dup_row, dupfd_of, fcntl_row};
ghost use Rattle.kernel_model.specs.calls.Descriptors.{gives, gives_at, ioctl_row, is_cloexec_or_none, is_possible};
ghost use Rattle.kernel_model.specs.calls.Descriptors.{mark_of, opens_from, sets_status, tells_status};
ghost use Rattle.kernel_model.specs.calls.Lookups.{descriptor, with_file};
ghost use Rattle.kernel_calls.specs.Prepared.{HasTable};
ghost use Rattle.call_fs.specs.Lookups.{IsOpen, file_at, file_in};
ghost use Rattle.call_fs.specs.Prepared.{AnswersFiles};

use crate::lookups::{Looked, descriptor, look, lowest_free};
use crate::prepared::{FilePrepared, refused, replied};
use fd_table::{Descriptor, FdTable, O_CLOEXEC, OPEN_MAX};
use file_changes::FileChange;
use kernel_model::OpenFile;
use sn_errno::Errno;

/// dup(fd): the lowest free number gets what the descriptor stands for, and is the reply. execve(2) doesn't close it.
///
/// EBADF: the descriptor isn't open; EMFILE: no number is free.
pub fn dup(numbers: Option<&FdTable>, fd: u64) -> FilePrepared
    ensures row { (c : ACaller) (k : AKernel) → HasTable c k (option_copied numbers.entry) →
        AnswersFiles (dup_row fd c) result c k }
{
    match look(numbers, fd) {
        None => refused(Errno::EBADF),
        Some(looked) => opens_from(&looked, 0, false),
    }
}

/// dup3(fd, number, flags): the number gets what the descriptor stands for, in the place of what it had, which is
/// closed, and is the reply. execve(2) closes it where the flag is O_CLOEXEC. Flags are the low 32 bits.
///
/// EINVAL: a flag that is neither 0 nor O_CLOEXEC, or two numbers that are one; EBADF: the descriptor isn't open, or no
/// table has the number.
pub fn dup3(numbers: Option<&FdTable>, fd: u64, number: u64, flags: u64) -> FilePrepared
    ensures row { (c : ACaller) (k : AKernel) → HasTable c k (option_copied numbers.entry) →
        AnswersFiles (dup3_row fd number flags c) result c k }
{
    let flags = (flags % (1 << 32)) as u32;
    if !is_cloexec_or_none(flags) || descriptor(fd) == descriptor(number) {
        return refused(Errno::EINVAL);
    }
    match look(numbers, fd) {
        None => refused(Errno::EBADF),
        Some(looked) => gives_at(&looked, descriptor(number), flags),
    }
}

/// fcntl(fd, command, argument): F_DUPFD and F_DUPFD_CLOEXEC give the lowest free number from the argument on what the
/// descriptor stands for; F_GETFD and F_SETFD are of the descriptor's own mark, FD_CLOEXEC; F_GETFL and F_SETFL are of
/// the status flags of its open file description, which is handed in. Command and argument are the low 32 bits.
///
/// EBADF: the descriptor isn't open; EINVAL: another command, or an argument that no table has as a number; EMFILE: no
/// number is free from there on.
pub fn fcntl(
    numbers: Option<&FdTable>,
    fd: u64,
    file: Option<OpenFile>,
    command: u64,
    argument: u64,
) -> FilePrepared
    ensures row { (c : ACaller) (k : AKernel) → HasTable c k (option_copied numbers.entry) →
        file_in k.files c.table (descriptor fd) ≡ file →
        AnswersFiles (fcntl_row fd command argument c) result c k }
{
    let command = (command % (1 << 32)) as u32;
    let argument = (argument % (1 << 32)) as u32;
    match look(numbers, fd) {
        None => refused(Errno::EBADF),
        Some(looked) => by_command(&looked, file, command, argument),
    }
}

/// ioctl(fd): nothing is a terminal.
///
/// EBADF: the descriptor isn't open; ENOTTY: it is.
pub fn ioctl(numbers: Option<&FdTable>, fd: u64) -> FilePrepared
    ensures row { (c : ACaller) (k : AKernel) → HasTable c k (option_copied numbers.entry) →
        AnswersFiles (ioctl_row fd c) result c k }
{
    match look(numbers, fd) {
        None => refused(Errno::EBADF),
        Some(_) => refused(Errno::ENOTTY),
    }
}

/// close(fd): the number is free. With the last descriptor of an open file description that is closed too.
///
/// EBADF: the descriptor isn't open.
pub fn close(numbers: Option<&FdTable>, fd: u64) -> FilePrepared
    ensures row { (c : ACaller) (k : AKernel) → HasTable c k (option_copied numbers.entry) →
        AnswersFiles (close_row fd c) result c k }
{
    match look(numbers, fd) {
        None => refused(Errno::EBADF),
        Some(looked) => FilePrepared {
            reply: 0,
            change: FileChange::Closes {
                number: looked.number,
            },
        },
    }
}

/// O_CLOEXEC, or no flag.
fn is_cloexec_or_none(flags: u32) -> bool
    ensures { result ≡ is_cloexec_or_none flags }
{
    flags == 0 || flags == O_CLOEXEC
}

/// A number that a table may have.
fn is_possible(number: u32) -> bool
    ensures { result ≡ is_possible number }
{
    (number as usize) < OPEN_MAX
}

/// A number gets what another stands for, and is the reply.
fn gives(looked: &Looked<'_>, number: u32, cloexec: bool) -> FilePrepared
    ensures row { (c : ACaller) (k : AKernel) → IsOpen looked.now c k →
        dup3_fault looked.now.numbers.now looked.now.number number ≡ None →
        AnswersFiles (gives c cloexec looked.now.numbers.now looked.now.descriptor number) result c k }
{
    FilePrepared {
        reply: i64::from(number),
        change: FileChange::Gives {
            from: looked.number,
            number,
            cloexec,
        },
    }
}

/// The lowest free number at or above one gets what another stands for.
fn opens_from(looked: &Looked<'_>, from: u32, cloexec: bool) -> FilePrepared
    ensures row { (c : ACaller) (k : AKernel) → IsOpen looked.now c k →
        AnswersFiles (opens_from c from cloexec looked.now.numbers.now looked.now.descriptor) result c k }
{
    match lowest_free(looked.numbers, from) {
        None => refused(Errno::EMFILE),
        Some(number) => gives(looked, number, cloexec),
    }
}

/// A number that is told gets what another stands for.
fn gives_at(looked: &Looked<'_>, number: u32, flags: u32) -> FilePrepared
    ensures row { (c : ACaller) (k : AKernel) → IsOpen looked.now c k → looked.now.number ≢ number →
        AnswersFiles (gives_at c number flags looked.now.numbers.now looked.now.descriptor) result c k }
{
    if is_possible(number) {
        gives(looked, number, flags == O_CLOEXEC)
    } else {
        refused(Errno::EBADF)
    }
}

/// What a command of fcntl comes to.
fn by_command(
    looked: &Looked<'_>,
    file: Option<OpenFile>,
    command: u32,
    argument: u32,
) -> FilePrepared
    ensures row { (c : ACaller) (k : AKernel) → IsOpen looked.now c k → file_at k.files looked.now.descriptor ≡ file →
        AnswersFiles (by_command command argument looked.now.number c looked.now.numbers.now looked.now.descriptor)
        result c k }
{
    if command == 0 {
        dupfd_of(looked, argument, false)
    } else if command == 1030 {
        dupfd_of(looked, argument, true)
    } else if command == 1 {
        replied(mark_of(looked.descriptor))
    } else if command == 2 {
        FilePrepared {
            reply: 0,
            change: FileChange::Marks {
                number: looked.number,
                cloexec: argument % 2 == 1,
            },
        }
    } else if command == 3 {
        tells_status(file)
    } else if command == 4 {
        sets_status(looked.descriptor, file, argument)
    } else {
        refused(Errno::EINVAL)
    }
}

/// F_DUPFD and F_DUPFD_CLOEXEC.
fn dupfd_of(looked: &Looked<'_>, from: u32, cloexec: bool) -> FilePrepared
    ensures row { (c : ACaller) (k : AKernel) → IsOpen looked.now c k →
        AnswersFiles (dupfd_of from cloexec c looked.now.numbers.now looked.now.descriptor) result c k }
{
    if is_possible(from) {
        opens_from(looked, from, cloexec)
    } else {
        refused(Errno::EINVAL)
    }
}

/// F_GETFD.
fn mark_of(descriptor: Descriptor) -> u32
    ensures { result ≡ mark_of descriptor }
{
    if descriptor.cloexec { 1 } else { 0 }
}

/// F_GETFL.
fn tells_status(file: Option<OpenFile>) -> FilePrepared
    ensures row { (c : ACaller) (k : AKernel) (d : ADescriptor) → file_at k.files d ≡ file →
        AnswersFiles (with_file d.description tells_status) result c k }
{
    match file {
        None => refused(Errno::EBADF),
        Some(file) => replied(file.description.status_flags()),
    }
}

/// F_SETFL.
fn sets_status(descriptor: Descriptor, file: Option<OpenFile>, flags: u32) -> FilePrepared
    ensures row { (c : ACaller) (k : AKernel) → file_at k.files descriptor ≡ file →
        AnswersFiles (with_file descriptor.description (sets_status descriptor flags)) result c k }
{
    match file {
        None => refused(Errno::EBADF),
        Some(_) => FilePrepared {
            reply: 0,
            change: FileChange::SetsStatus {
                description: descriptor.description,
                flags,
            },
        },
    }
}

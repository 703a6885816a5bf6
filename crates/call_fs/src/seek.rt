//! lseek, pread64 and pwrite64.

ghost use Rattle.std.specs.Prelude.{◌≡◌, ℕ, if◌then◌else◌};
ghost use Rattle.sn_errno.specs.declared.errno.Errno.TheVariants.{EBADF};
ghost use Rattle.kernel_model.specs.declared.caller.Caller.{Caller as ACaller};
ghost use Rattle.kernel_model.specs.declared.kernel.Kernel.{Kernel as AKernel};
ghost use Rattle.kernel_model.specs.calls.Answers.{refuses};
ghost use Rattle.kernel_model.specs.calls.Lookups.{descriptor};
ghost use Rattle.kernel_model.specs.calls.Seek.{lseek_row, positioned, pread64_row, pwrite64_row};
ghost use Rattle.kernel_model.specs.entries.Parts.{done};
ghost use Rattle.call_fs.specs.Lookups.{file_in};
ghost use Rattle.call_fs.specs.Prepared.{AnswersFiles};

use crate::prepared::{FilePrepared, refused};
use fd_table::Object;
use kernel_model::OpenFile;
use sn_errno::Errno;

/// lseek(fd), with what the descriptor has open: no object that is open has a position so far.
///
/// EBADF: the descriptor isn't open; ESPIPE: a pipe, the console or the empty input; ENOSYS: a node.
pub fn lseek(file: Option<OpenFile>) -> FilePrepared
    ensures row { (fd : ℕ) (c : ACaller) (k : AKernel) → file_in k.files c.table (descriptor fd) ≡ file →
        AnswersFiles (lseek_row fd c) result c k }
{
    let Some(file) = file else {
        return refused(Errno::EBADF);
    };
    positioned(file.description.object)
}

/// pread64(fd): as lseek.
///
/// EBADF: the descriptor isn't open, or not for reading; ESPIPE and ENOSYS as at lseek.
pub fn pread64(file: Option<OpenFile>) -> FilePrepared
    ensures row { (fd : ℕ) (c : ACaller) (k : AKernel) → file_in k.files c.table (descriptor fd) ≡ file →
        AnswersFiles (pread64_row fd c) result c k }
{
    match file {
        None => refused(Errno::EBADF),
        Some(file) => if_may(file.description.access.may_read(), file.description.object),
    }
}

/// pwrite64(fd): as lseek.
///
/// EBADF: the descriptor isn't open, or not for writing; ESPIPE and ENOSYS as at lseek.
pub fn pwrite64(file: Option<OpenFile>) -> FilePrepared
    ensures row { (fd : ℕ) (c : ACaller) (k : AKernel) → file_in k.files c.table (descriptor fd) ≡ file →
        AnswersFiles (pwrite64_row fd c) result c k }
{
    match file {
        None => refused(Errno::EBADF),
        Some(file) => if_may(file.description.access.may_write(), file.description.object),
    }
}

/// A call at a position, where the access lets the caller do so.
fn if_may(may: bool, object: Object) -> FilePrepared
    ensures row { (c : ACaller) (k : AKernel) →
        AnswersFiles (if may then positioned object else done (refuses EBADF)) result c k }
{
    if may {
        positioned(object)
    } else {
        refused(Errno::EBADF)
    }
}

/// A call at a position of an object.
fn positioned(object: Object) -> FilePrepared
    ensures row { (c : ACaller) (k : AKernel) → AnswersFiles (positioned object) result c k }
{
    match object {
        Object::Node(_) => refused(Errno::ENOSYS),
        Object::PipeEnd { .. } => refused(Errno::ESPIPE),
        Object::Console => refused(Errno::ESPIPE),
        Object::EmptyInput => refused(Errno::ESPIPE),
    }
}

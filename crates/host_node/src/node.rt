//! The calls of a directory, a file or a link of a host, and what each owes its holder.

ghost use Rattle.std.specs.Prelude.{◌≡◌, ◌≤◌, ℕ, length, Option, IfOk, IfSome, IfNone, OnOk, OnErr};
ghost use Rattle.host_node.specs.declared.kind.Kind.{Kind};
ghost use Rattle.host_node.specs.Tree.{Shape};
ghost use Rattle.host_node.specs.Faults.{host_failed};
ghost use Rattle.sn_base.specs.Faults.{HasCause};
ghost use Rattle.host_node.specs.Order.{IsAscending, names_of};
ghost use Rattle.host_node.specs.Told.{Opened, Closed, told_after_open, TellsItself, kept, TellsAttr, CanList, TellsListing};
ghost use Rattle.host_node.specs.Told.{CanLend, LacksChild, TellsLent, after_lend, CanOpen, CanRead, ReadsAt};
ghost use Rattle.host_node.specs.Told.{CanTakeBack, TakesBack};

use crate::error::HostErr;
use crate::kind::{Attr, Kind};
use crate::listing::Listing;
use sn_text::{Name, Route};

/// A directory, a file or a link of a host, which its holder owns: no other object has it.
///
/// A node is reached by the names of a route from the folder that was granted. What it tells doesn't
/// depend on them; a host on a machine finds its file by them, without following links.
///
/// Each call on a `&mut` may fail. Then the node's count of failed calls rose, and it rose in no call
/// that answered otherwise. The count is a `u64`, and stays at the greatest one.
pub trait HostNode: Sized + Send + Drop {
    /// How many calls failed.
    ghost count: { Self → ℕ };

    /// The tree of files that the node tells, or `None`.
    ghost told: { Self → Option Shape };

    /// What the node is.
    ghost what: { Self → Kind };

    /// How the node stands to its file.
    ghost opened: { Self → Opened };

    /// How many calls of the node failed.
    fn faults(&self) -> u64
        ensures { result ≡ count self.now };

    /// What the node is. It never changes.
    fn kind(&self) -> Kind
        ensures { result ≡ what self.now };

    /// The node's attributes (stat(2)). A link is not followed.
    fn stat(&mut self, route: &Route) -> Result<Attr, HostErr>
        ensures attr { IfOk result (TellsAttr (told self.old)) }
        ensures mode { IfOk result (λ attr. attr.mode ≤ 511) }
        ensures kind { IfOk result (λ attr. attr.kind ≡ what self.old) }
        ensures faults { HasCause (host_failed result) (count self.old) (count self.new) }
        ensures tells { told self.new ≡ kept (count self.new) (told self.old) }
        ensures what { what self.new ≡ what self.old }
        ensures opened { opened self.new ≡ opened self.old };

    /// The names and kinds of a directory's entries, but for `.` and `..`, by the order of the names'
    /// bytes (readdir(3)). They take the place of what the listing had, which stays on an `Err`.
    fn list(&mut self, route: &Route, out: &mut Listing) -> Result<(), HostErr>
        requires { CanList (told self.old) }
        ensures entries { OnOk result (TellsListing (told self.old) out.new) }
        ensures ordered { OnOk result (IsAscending (names_of out.new)) }
        ensures err { OnErr result (out.new ≡ out.old) }
        ensures faults { HasCause (host_failed result) (count self.old) (count self.new) }
        ensures tells { told self.new ≡ kept (count self.new) (told self.old) }
        ensures what { what self.new ≡ what self.old }
        ensures opened { opened self.new ≡ opened self.old };

    /// What stands under a name of a directory, or `None` where nothing does. The node that comes out is
    /// its holder's, and stands as lent here until it is taken back.
    fn lend(&mut self, route: &Route, name: &Name) -> Result<Option<Self>, HostErr>
        requires { CanLend name.now (told self.old) }
        ensures none { IfOk result (λ lent. IfNone lent (LacksChild name.now (told self.old))) }
        ensures node { IfOk result (λ lent. IfSome lent (λ node.
            TellsLent name.now (told self.old) (told node) (count node) (what node))) }
        ensures closed { IfOk result (λ lent. IfSome lent (λ node. opened node ≡ Closed)) }
        ensures faults { HasCause (host_failed result) (count self.old) (count self.new) }
        ensures tells { told self.new ≡ after_lend result name.now (count self.new) (told self.old) }
        ensures what { what self.new ≡ what self.old }
        ensures opened { opened self.new ≡ opened self.old };

    /// Opens a file for reading or for writing, or a directory for reading (open(2)).
    fn open(&mut self, route: &Route, write: bool) -> Result<(), HostErr>
        requires { CanOpen write (told self.old) }
        ensures opened { opened self.new ≡ told_after_open result write (opened self.old) }
        ensures faults { HasCause (host_failed result) (count self.old) (count self.new) }
        ensures tells { told self.new ≡ kept (count self.new) (told self.old) }
        ensures what { what self.new ≡ what self.old };

    /// Reads a file from an offset, all that is there, up to the buffer's length, and answers how many
    /// bytes that is (pread(2)). The rest of the buffer stays. On an `Err` nothing is said of the buffer.
    fn read_at(&mut self, at: u64, buf: &mut [u8]) -> Result<usize, HostErr>
        requires { CanRead (told self.old) (opened self.old) }
        ensures within { IfOk result (λ n. n ≤ length buf.old) }
        ensures bytes { IfOk result (λ n. ReadsAt at (told self.old) n buf.old buf.new) }
        ensures faults { HasCause (host_failed result) (count self.old) (count self.new) }
        ensures tells { told self.new ≡ kept (count self.new) (told self.old) }
        ensures what { what self.new ≡ what self.old }
        ensures opened { opened self.new ≡ opened self.old };

    /// Puts a node back that was lent from under this name. It takes no memory.
    fn take_back(&mut self, name: &Name, node: Self)
        requires { CanTakeBack name.now (told self.old) }
        ensures tells { TakesBack name.now (told self.old) (told node) (told self.new) }
        ensures faults { count self.new ≡ count self.old }
        ensures what { what self.new ≡ what self.old }
        ensures opened { opened self.new ≡ opened self.old };

    /// What a node tells is a node with its count of failed calls, and of its kind.
    ghost tells_itself: { (node : Self) → TellsItself (told node) (count node) (what node) };
}

//! The opening execve of a program, over a granted folder.

ghost use Rattle.std.specs.Prelude.{◌≡◌, ◌<◌, ℕ, List as Items, [], length, true, IfOk, OnErr};
ghost use Rattle.std.specs.Prelude.{vec_len, vec_capacity};
ghost use Rattle.host_node.specs.Tree.{Shape};
ghost use Rattle.sn_errno.specs.declared.errno.Errno.TheVariants.{E2BIG};
ghost use Rattle.kernel_model.specs.entries.Given.{numbers_of};
ghost use Rattle.kernel_model.specs.opening.Arguments.{is_too_long};
ghost use Rattle.image_walk.specs.Executing.{Executes, fresh_by, rises_by};
ghost use Rattle.image_walk.specs.Granted.{told_of};
ghost use Rattle.image_walk.specs.Loading.{is_roomy};
ghost use Rattle.image_walk.specs.Standing.{IsNumbering, StandsLent};
ghost use Rattle.image_walk.specs.Walking.{IsGrant, IsSilent, NumbersNext};

use crate::granted::Granted;
use crate::loading::{ImageAnswer, NodeAnswer};
use crate::walk::{WalkEnd, walk};
use host_node::HostNode;
use kernel_calls::is_too_long;
use kernel_model::{Fresh, Given, Rise};
use mount_file::Program;
use sn_base::{List, Memory};
use sn_errno::Errno;
use sn_text::Name;
use std::alloc::Global;

/// What an opening execve drew and met, and what it answers.
#[derive(Drop)]
pub struct OpeningExecve {
    pub given: Given,
    pub answer: ImageAnswer,
    ghost pages: { is_roomy answer ≡ true },
}

/// Room to tell what a walk to a name draws and meets. It is taken before the walk, so that nothing is met that can't
/// be told.
#[derive(Drop)]
struct Room {
    name: Name,
    fresh: Vec<Fresh>,
    rises: Vec<Rise>,
}

/// Room for one number of a child of that name, and for one rise.
fn make_room(alloc: Global, name: &Name) -> Result<Room, Memory>
    ensures name { IfOk result (λ room. room.name ≡ name.now) }
    ensures fresh { IfOk result (λ room. (room.fresh.items ≡ []) × (vec_len room.fresh < vec_capacity room.fresh)) }
    ensures rises { IfOk result (λ room. (room.rises.items ≡ []) × (vec_len room.rises < vec_capacity room.rises)) }
{
    Ok(Room {
        name: name.copy(alloc)?,
        fresh: Vec::with_capacity(alloc, 1)?,
        rises: Vec::with_capacity(alloc, 1)?,
    })
}

/// What a walk from the root of that number drew and met: the number of the node that it came to, where that is new,
/// and by how much that node's count of faults rose. It takes no memory.
fn gathered(room: Room, root: u64, drawn: bool, ino: u64, risen: Option<u64>) -> Given
    requires fresh { (room.fresh.items ≡ []) × (vec_len room.fresh < vec_capacity room.fresh) }
    requires rises { (room.rises.items ≡ []) × (vec_len room.rises < vec_capacity room.rises) }
    ensures fresh { result.fresh ≡ fresh_by root drawn ino room.name }
    ensures rises { result.rises ≡ rises_by ino risen }
{
    let Room {
        name,
        mut fresh,
        mut rises,
    } = room;
    if drawn {
        fresh.push_reserved(Fresh {
            dir: root,
            name,
            ino,
        });
    }
    if let Some(count) = risen {
        rises.push_reserved(Rise { ino, count });
    }
    Given {
        fresh: List::from_vec(fresh),
        rises: List::from_vec(rises),
    }
}

/// Does the opening execve of a program over a granted folder: where its strings are too long it walks to nothing, else
/// it walks to the name of its image, and loads it. An `Err`, want of memory, leaves the folder as it was.
///
/// execve(2). E2BIG; EACCES: a root that its owner may not search; ENOENT: no such name; then what the node is.
pub fn execve<N: HostNode>(
    alloc: Global,
    granted: &mut Granted<N>,
    program: &Program,
) -> Result<OpeningExecve, Memory>
    requires numbers { IsNumbering granted.old.numbers }
    requires grant { IsGrant granted.old.numbers (N.told granted.old.root) (told_of N.told granted.old.lent.items) }
    ensures same { granted.new.numbers ≡ granted.old.numbers }
    ensures executes { IfOk result (λ e. (t : Shape) (names : Items (Items ℕ)) →
        StandsLent granted.old.numbers t names [] (N.told granted.old.root) (told_of N.told granted.old.lent.items) →
        Executes granted.old.numbers (is_too_long program.now.args program.now.env) t names program.now.name
        e.given e.answer (N.told granted.new.root) (told_of N.told granted.new.lent.items)) }
    ensures numbers { IfOk result (λ e. NumbersNext granted.old.numbers (numbers_of e.given.fresh)
        (length granted.old.lent.items) (length granted.new.lent.items)) }
    ensures silent { IsSilent (N.told granted.old.root) (told_of N.told granted.old.lent.items) →
        IsSilent (N.told granted.new.root) (told_of N.told granted.new.lent.items) }
    ensures long { IfOk result (λ e. is_too_long program.now.args program.now.env ≡ true →
        e.answer ≡ ImageAnswer.Refuses E2BIG) }
    ensures err { OnErr result (N.told granted.new.root ≡ N.told granted.old.root) }
    ensures err_lent { OnErr result (told_of N.told granted.new.lent.items ≡ told_of N.told granted.old.lent.items) }
{
    if is_too_long(program) {
        return Ok(OpeningExecve {
            given: Given {
                fresh: List::new(alloc),
                rises: List::new(alloc),
            },
            answer: ImageAnswer::Refuses(Errno::E2BIG),
        });
    }
    let root = granted.numbers.root;
    let room = make_room(alloc, &program.name)?;
    let WalkEnd { drawn, ino, loaded } = walk(alloc, granted, &program.name)?;
    let NodeAnswer { risen, answer } = loaded;
    let given = gathered(room, root, drawn, ino, risen);
    Ok(OpeningExecve { given, answer })
}

//! Paths of folders, and of what is below them.

ghost use Rattle.std.specs.Prelude.{◌≡◌, ◌++◌, ◌∷◌, All, IfOk, OnOk, IsOkUnless, IsUtf8, string_bytes};
ghost use Rattle.host_folder.specs.Paths.{slashed, path_start};

use host_node::HostErr;
use sn_text::{Name, Route};
use std::alloc::Global;

/// Where the path of a folder begins: at the root, or at the working directory.
pub(crate) fn start(alloc: Global, rooted: bool) -> Result<String, HostErr>
    ensures ok { IfOk result (λ path. string_bytes path ≡ path_start rooted) }
    ensures err { IsOkUnless result HostErr.Memory }
{
    let start = if rooted { "" } else { "." };
    Ok(String::from_str(alloc, start)?)
}

/// Adds a name to a path, behind a slash. A name that isn't UTF-8 can't stand in one.
pub(crate) fn push_name(path: &mut String, name: &Name) -> Result<(), HostErr>
    ensures ok { OnOk result (string_bytes path.new ≡ string_bytes path.old ++ (47 ∷ name.now)) }
    ensures text { OnOk result (IsUtf8 name.now) }
    ensures failed { ¬ (IsUtf8 name.now) → result ≡ Err HostErr.Failed }
    ensures memory { IsUtf8 name.now → IsOkUnless result HostErr.Memory }
{
    let Ok(text) = str::from_utf8(name.as_bytes()) else {
        return Err(HostErr::Failed);
    };
    path.push('/')?;
    path.push_str(text)?;
    Ok(())
}

/// The path of the node to which a route leads from a folder.
pub(crate) fn path_of(alloc: Global, folder: &str, route: &Route) -> Result<String, HostErr>
    ensures ok { IfOk result (λ path. string_bytes path ≡ folder.now ++ slashed route.now) }
    ensures text { OnOk result (All IsUtf8 route.now) }
    ensures memory { All IsUtf8 route.now → IsOkUnless result HostErr.Memory }
{
    let mut path = String::from_str(alloc, folder)?;
    for name in route.names() {
        push_name(&mut path, name)?;
    }
    Ok(path)
}

//! Names in messages: their type keeps what a message's name has to be.

ghost use Rattle.std.specs.Prelude.{◌≡◌, [], ◌∷◌, map};
ghost use Rattle.sn_text.specs.Names.{IsName};
ghost use Rattle.lisafs_wire.specs.Fields.{Name as NameField};
ghost use Rattle.lisafs_wire.specs.Messages.{name_group};
ghost use Rattle.lisafs_wire.specs.Spelling.{AreGroupsOf};

use sn_text::Name;

/// A name may stand in a message. Nothing is done for it.
pub(crate) fn know_name(name: &Name)
    ensures { IsName name.now }
{
    let _bytes = name.as_bytes();
}

/// Each of the names may stand in a message. Nothing is done for it.
pub(crate) fn know_names(names: &[Name])
    ensures { AreGroupsOf (NameField ∷ []) (map name_group names.now) }
{
    match names {
        [] => (),
        [name, rest @ ..] => {
            know_name(name);
            know_names(rest);
        }
    }
}

// The snapshot contexts of files, by the realms of which the client was told.
ghost use Rattle.std.specs.Prelude.{◌≡◌, IfOk};
ghost use Rattle.std.specs.Option.{option_copied};
ghost use Rattle.cs_tree.specs.Directories.{path_of};
ghost use Rattle.cs_client.specs.Contexts.{home_context, nearest_context};

use cs_ids::{Ino, Memory};
use cs_realms::Realms;
use cs_snapctx::SnapContext;
use cs_tree::Directories;
use std::alloc::Global;

/// The context of a file in a directory: that of the nearest realm on the way up.
pub fn file_context(
    alloc: Global,
    tree: &Directories,
    realms: &Realms,
    home: Ino,
) -> Result<SnapContext, Memory>
    ensures { IfOk result (λ c. c ≡ home_context tree.now realms.now home) }
{
    match home_context(tree, realms, home) {
        Some(context) => context.copy(),
        None => Ok(SnapContext::empty(alloc)),
    }
}

/// The same without a copy, or None where no realm is on the way up.
pub fn home_context<'a>(
    tree: &Directories,
    realms: &'a Realms,
    home: Ino,
) -> Option<&'a SnapContext>
    ensures { option_copied result ≡ nearest_context (path_of tree.now home) realms.now }
{
    match tree.path(home) {
        Some(path) => nearest_context(path, realms),
        // One that isn't known is below the root alone.
        None => realms.context(Ino::new(1)?),
    }
}

// The context of the first of these directories that is a realm.
fn nearest_context<'a>(path: &[Ino], realms: &'a Realms) -> Option<&'a SnapContext>
    ensures { option_copied result ≡ nearest_context path.now realms.now }
{
    for directory in path {
        let found = realms.context(*directory);
        if found.is_some() {
            return found;
        }
    }
    None
}

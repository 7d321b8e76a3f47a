// The folder of a service. A connection that was opened with a Target is one to the service of that name: if the working folder has a
// folder `service-` with the Target's bytes in hexadecimal, its Puts and Gets go there, and otherwise to the working folder itself.
ghost use Rattle.std.specs.Prelude.{◌≤◌, length};

use files::error::is_missing;
use files::fault::number_of;
use files::path::{Folder, LONGEST_FOLDER, front, service_folder};
use files::system;
use std::fs::Files;
use table::targets::Target;

// How long a path may be: the name of a service's folder, a slash, and a name of 255 bytes.
pub(crate) const LONGEST: usize = 296;

// Returns the working folder, which has no name in its paths.
fn working() -> Folder {
    Folder {
        name: [0u8; LONGEST_FOLDER],
        length: 0,
    }
}

// Puts the path of `file` in `folder` at the front of `path`, and returns how long it is.
pub(crate) fn join(folder: Folder, file: &[u8], path: &mut [u8]) -> usize
    ensures { result ≤ length path.new }
{
    let name = folder.name;
    files::path::join(front(&name, folder.length), file, path)
}

// Returns whether there is such a folder. One that cannot be opened is there, so that the files of its service do not go elsewhere; a file of
// its name, which a client may have put there, is no folder.
fn is_there<R: Files>(rt: &R, folder: Folder) -> bool {
    let mut path = [0u8; LONGEST];
    let n = join(folder, b".", &mut path);
    match system::open(rt, &path[0..n]) {
        Ok(_) => true,
        Err(e) => !is_missing(number_of(&e)),
    }
}

// Returns the folder in which a request that names `target` finds its file.
pub(crate) fn folder_of<R: Files>(rt: &R, target: Target) -> Folder {
    let folder = service_folder(target);
    if folder.length == 0 {
        return folder;
    }
    if is_there(rt, folder) {
        return folder;
    }
    working()
}

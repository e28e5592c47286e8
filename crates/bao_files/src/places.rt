// Which names lead to one file of the system's. No contract knows that: the system is asked.

use crate::input::STANDARD_INPUT;
use std::fs;
use std::fs::Metadata;
use std::os::unix::fs::MetadataExt;
use std::rt::Files;

// The number of the device that keeps nothing, `/dev/null`.
const NULL_DEVICE: u64 = 0x103;

// Whether both are of one file, which keeps what is written to it or hands it on.
fn is_one(ours: &Metadata, theirs: &Metadata) -> bool {
    ours.dev() == theirs.dev() && ours.ino() == theirs.ino() && ours.rdev() != NULL_DEVICE
}

// The folder in which a path has its last name, and that name.
fn parted(path: &str) -> (&str, &str) {
    match path.rsplit_once('/') {
        Some(("", name)) => ("/", name),
        Some((folder, name)) => (folder, name),
        None => (".", path),
    }
}

// Whether two paths at which there is no file yet are one name in one folder.
fn is_one_place<R: Files>(rt: &R, ours: &str, theirs: &str) -> bool {
    let ((our_folder, our_name), (their_folder, their_name)) = (parted(ours), parted(theirs));
    if our_name != their_name {
        return false;
    }
    match (fs::metadata(rt, our_folder), fs::metadata(rt, their_folder)) {
        (Ok(ours), Ok(theirs)) => is_one(&ours, &theirs),
        _ => false,
    }
}

/// Returns whether both paths lead to one file: to one that exists, by any links, or to one name in one folder,
/// where a file would be created. `/dev/null` never counts. If the system can't be asked, they don't. In
/// `theirs`, `-` is standard input.
pub(crate) fn is_one_file<R: Files>(rt: &R, ours: &str, theirs: &str) -> bool {
    let theirs = if theirs == STANDARD_INPUT {
        "/dev/stdin"
    } else {
        theirs
    };
    match (fs::metadata(rt, ours), fs::metadata(rt, theirs)) {
        (Ok(ours), Ok(theirs)) => is_one(&ours, &theirs),
        (Err(_), Err(_)) => is_one_place(rt, ours, theirs),
        _ => false,
    }
}

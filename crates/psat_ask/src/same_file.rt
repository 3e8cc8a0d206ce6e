//! Whether names are of one file.
use std::fs::metadata;
use std::os::unix::fs::{FileTypeExt, MetadataExt};

/// The name that the system gives to what standard input reads.
pub const STDIN: &str = "/proc/self/fd/0";

/// The name that it gives to what standard output writes to.
pub const STDOUT: &str = "/proc/self/fd/1";

/// The name that it gives to what standard error writes to.
pub const STDERR: &str = "/proc/self/fd/2";

/// Whether two names are of one file, by its device and its number. Where the system doesn't tell
/// these, they aren't.
pub fn are_same_file(rt: &HostRuntime, name: &str, other: &str) -> bool {
    match (metadata(rt, name), metadata(rt, other)) {
        (Ok(one), Ok(two)) => one.dev() == two.dev() && one.ino() == two.ino(),
        _ => false,
    }
}

/// Whether what is written under a name is kept, so that it takes the place of what was there: not
/// where it is a terminal or another such device.
pub fn keeps_bytes(rt: &HostRuntime, name: &str) -> bool {
    match metadata(rt, name) {
        Ok(found) => !found.file_type().is_char_device(),
        Err(_) => false,
    }
}

//! Why the system refuses, in words.
use std::io::ErrorKind;

/// Why the system refuses, where there are words for its error.
pub fn reason_of(kind: ErrorKind) -> Option<&'static str> {
    match kind {
        ErrorKind::NotFound => Some("no such file or directory"),
        ErrorKind::PermissionDenied => Some("permission denied"),
        ErrorKind::IsADirectory => Some("it is a directory"),
        ErrorKind::NotADirectory => Some("a part of its path is no directory"),
        ErrorKind::FilesystemLoop => Some("too many symbolic links"),
        ErrorKind::InvalidFilename => Some("its name is too long"),
        ErrorKind::ReadOnlyFilesystem => Some("the file system is read-only"),
        ErrorKind::StorageFull => Some("no space is left"),
        ErrorKind::QuotaExceeded => Some("the quota is used up"),
        ErrorKind::FileTooLarge => Some("the file is too large"),
        ErrorKind::ResourceBusy | ErrorKind::ExecutableFileBusy => Some("it is in use"),
        ErrorKind::OutOfMemory => Some("not enough memory"),
        ErrorKind::BrokenPipe => Some("its reader has gone"),
        _ => None,
    }
}

// Why the system refused a call.
use std::io::ErrorKind;

/// Why the system refused a call on a file or a stream, as far as it is known.
#[derive(Clone, Copy, Debug, PartialEq, Eq)]
pub enum HostFault {
    Missing,
    NotAllowed,
    Folder,
    NoFolder,
    LongName,
    Circle,
    ReadOnly,
    Full,
    TooLarge,
    Unread,
    Other,
}

impl HostFault {
    pub(crate) fn of(kind: ErrorKind) -> HostFault {
        match kind {
            ErrorKind::NotFound => HostFault::Missing,
            ErrorKind::PermissionDenied => HostFault::NotAllowed,
            ErrorKind::IsADirectory => HostFault::Folder,
            ErrorKind::NotADirectory => HostFault::NoFolder,
            ErrorKind::InvalidFilename => HostFault::LongName,
            ErrorKind::FilesystemLoop => HostFault::Circle,
            ErrorKind::ReadOnlyFilesystem => HostFault::ReadOnly,
            ErrorKind::StorageFull | ErrorKind::QuotaExceeded => HostFault::Full,
            ErrorKind::FileTooLarge => HostFault::TooLarge,
            ErrorKind::BrokenPipe => HostFault::Unread,
            _ => HostFault::Other,
        }
    }

    /// A sentence for people, without a full stop.
    pub fn sentence(self) -> &'static str {
        match self {
            HostFault::Missing => "there is no such file or folder",
            HostFault::NotAllowed => "this user has no permission for it",
            HostFault::Folder => "it is a folder",
            HostFault::NoFolder => "a part of the path is no folder",
            HostFault::LongName => "a name in the path is too long",
            HostFault::Circle => "links lead in a circle",
            HostFault::ReadOnly => "the file system is only for reading",
            HostFault::Full => "the disk or a quota is full",
            HostFault::TooLarge => "a file may not be so long here",
            HostFault::Unread => "nobody reads it any more",
            HostFault::Other => "the system gives no reason that has a sentence here",
        }
    }
}

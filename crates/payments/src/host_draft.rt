// What a file of the host is written to before it is whole.
ghost use Rattle.std.specs.Prelude.{◌<◌, ◌≤◌, length, IfOk};

use std::alloc::Global;
use std::fs::{self, Metadata, OpenFile, OpenOptions, Permissions};
use std::io::{self, ErrorKind, Write};
use std::os::unix::fs::{MetadataExt, OpenOptionsExt, PermissionsExt, lchown};
use std::path::{Path, PathBuf};
use std::rt::Files;
use tuple_trace::Word;

/// The mode of a draft until it gets that of the file: only its owner may read it.
const PRIVATE: u32 = 0o600;

/// How many links are followed, one after the other. The system follows as many.
const LINKS_MAX: u32 = 40;

/// The draft of a file of the host.
#[derive(Drop)]
pub(crate) struct HostDraft<F> {
    pub(crate) name: Word,
    pub(crate) way: Way<F>,
}

/// Where the bytes of a draft go.
#[derive(Drop)]
pub(crate) enum Way<F> {
    /// To the standard output.
    Printed,
    /// Straight to what has the name, which is no regular file.
    Straight(F),
    /// To a file in the same folder, which is moved to the path once it is whole.
    Beside {
        file: F,
        beside: PathBuf,
        path: PathBuf,
    },
}

/// What has a name before it is written.
#[derive(Drop)]
enum Found<F> {
    Nothing,
    Regular(Metadata),
    Other(F),
}

impl<F: Write + OpenFile + Drop> Way<F> {
    /// Writes the first bytes of a piece, at least one, and answers how many.
    pub(crate) fn write<R: Print>(&mut self, rt: &R, piece: &[u8]) -> io::Result<usize>
        requires { 0 < length piece.now }
        ensures { IfOk result (λ n. (0 < n) × (n ≤ length piece.now)) }
    {
        let taken = self.write_some(rt, piece)?;
        if taken == 0 {
            return Err(io::Error::from(ErrorKind::WriteZero));
        }
        Ok(taken)
    }

    fn write_some<R: Print>(&mut self, rt: &R, piece: &[u8]) -> io::Result<usize>
        ensures { IfOk result (λ n. n ≤ length piece.now) }
    {
        match self {
            Way::Printed => io::writer(rt).write(piece),
            Way::Straight(file) => file.write(piece),
            Way::Beside { file, .. } => file.write(piece),
        }
    }

    /// Puts what was written in the place of the file, once the disk has it.
    pub(crate) fn keep<R: Files>(&self, rt: &R) -> io::Result<()> {
        match self {
            Way::Printed | Way::Straight(_) => Ok(()),
            Way::Beside { file, beside, path } => {
                file.sync_all()?;
                fs::rename(rt, beside, path)
            }
        }
    }

    /// Removes what was written beside the file. That it can't be removed changes nothing.
    pub(crate) fn give_up<R: Files>(&self, rt: &R) {
        if let Way::Beside { beside, .. } = self {
            let _ = fs::remove_file(rt, beside);
        }
    }
}

/// Opens what a draft of this file is written to. The file itself stays as it is, unless it is no
/// regular file.
pub(crate) fn begin<R: Files>(rt: &R, alloc: Global, name: &str) -> io::Result<Way<R::File>> {
    if is_standard_output(name) {
        return Ok(Way::Printed);
    }
    match find(rt, name)? {
        Found::Other(file) => Ok(Way::Straight(file)),
        Found::Nothing => begin_beside(rt, alloc, name, None),
        Found::Regular(was) => begin_beside(rt, alloc, name, Some(was)),
    }
}

// The standard output is written as it stands, so that lines that are printed later follow.
pub(crate) fn is_standard_output(name: &str) -> bool {
    name == "/dev/stdout" || name == "/dev/fd/1" || name == "/proc/self/fd/1"
}

// What has this name, or the file that it links to. A file that may not be written is refused.
fn find<R: Files>(rt: &R, name: &str) -> io::Result<Found<R::File>> {
    match OpenOptions::new().write(true).open(rt, name) {
        Ok(file) => {
            let metadata = OpenFile::metadata(&file)?;
            if metadata.is_file() {
                Ok(Found::Regular(metadata))
            } else {
                Ok(Found::Other(file))
            }
        }
        Err(error) if error.kind() == ErrorKind::NotFound => Ok(Found::Nothing),
        Err(error) => Err(error),
    }
}

fn begin_beside<R: Files>(
    rt: &R,
    alloc: Global,
    name: &str,
    was: Option<Metadata>,
) -> io::Result<Way<R::File>> {
    let path = path_of(rt, alloc, name, was.is_none())?;
    let beside = beside_of(alloc, path.as_path())?;
    let file = make_beside(rt, &beside, was)?;
    Ok(Way::Beside { file, beside, path })
}

// The path of a file: the name, or what its links lead to. A new file isn't there yet.
fn path_of<R: Files>(rt: &R, alloc: Global, name: &str, is_new: bool) -> io::Result<PathBuf> {
    let mut path = Path::new(name).to_path_buf(alloc)?;
    for _ in 0..=LINKS_MAX {
        match rt.read_link(alloc, path.as_str()) {
            Ok(link) => {
                path.pop();
                path.push(&link)?;
            }
            // It is no link.
            Err(error) if error.kind() == ErrorKind::InvalidInput => return Ok(path),
            // Nothing has this name yet.
            Err(error) if error.kind() == ErrorKind::NotFound && is_new => return Ok(path),
            Err(error) => return Err(error),
        }
    }
    Err(io::Error::from(ErrorKind::FilesystemLoop))
}

// The path of a draft: the name of the file, hidden, with an ending of its own.
fn beside_of(alloc: Global, path: Path<'_>) -> io::Result<PathBuf> {
    match path.file_name() {
        Some(name) => {
            let hidden = format!(in alloc; ".{name}.fries-draft")?;
            Ok(path.with_file_name(alloc, hidden.as_str())?)
        }
        None => Err(io::Error::from(ErrorKind::IsADirectory)),
    }
}

// Makes a draft, in the place of one that a call left which was killed. It gets the group, if the
// user may give it that, and the mode of the file that is there.
fn make_beside<R: Files>(rt: &R, beside: &PathBuf, was: Option<Metadata>) -> io::Result<R::File> {
    let _ = fs::remove_file(rt, beside);
    let mut how = OpenOptions::new();
    how.write(true).create_new(true);
    let Some(was) = was else {
        return how.open(rt, beside);
    };
    how.mode(PRIVATE);
    let file = how.open(rt, beside)?;
    let mode = match lchown(rt, beside, None, Some(was.gid())) {
        Ok(()) => was.mode(),
        Err(_) => for_another_group(was.mode()),
    };
    match file.set_permissions(Permissions::from_mode(mode)) {
        Ok(()) => Ok(file),
        Err(error) => {
            let _ = fs::remove_file(rt, beside);
            Err(error)
        }
    }
}

// This mode for a file of another group, which may do what all others may.
fn for_another_group(mode: u32) -> u32 {
    (mode & !0o070) | ((mode & 0o007) << 3)
}

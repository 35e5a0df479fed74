//! Where files come from, and what is read of one.

ghost use Rattle.std.specs.Prelude.{◌≡◌, ◌≤◌, length, IfOk};
ghost use Rattle.byte_streams.specs.Files.{HasRead, ReadsFile, plain_text};

use crate::beginning::{ReadFault, read_beginning};
use crate::streams::{Reading, Source};
use std::alloc::Global;
use std::fs::{self, OpenFile};
use std::io::{self, ErrorKind};
use std::rt::{Clock, Files};
use std::sync::Wait;

/// Which files are opened.
#[derive(Clone, Copy)]
pub enum FileKinds {
    /// All that can be read. Opening a named pipe waits for whoever writes to it.
    All,
    /// Regular files alone.
    Regular,
}

/// Why the text of a file isn't read.
#[derive(Clone, Copy, Debug, PartialEq, Eq)]
pub enum FileFault {
    /// There is no file of this name.
    Missing,
    /// It is a folder.
    Folder,
    /// It must not be read.
    Forbidden,
    /// It can't be read, for a reason that isn't known.
    CannotRead,
    /// Memory ran out.
    NoMemory,
}

/// Opens files by their names, and takes them back.
pub trait Opener {
    ghost use Rattle.std.specs.Prelude.{◌≡◌, ℕ, [], List, Result, IfOk};
    ghost use Rattle.byte_streams.specs.declared.files.FileFault.{FileFault};
    ghost use Rattle.byte_streams.specs.declared.files.FileKinds.{FileKinds};

    /// A file that was opened.
    type File: Source;

    /// What holds, by which files are opened, of the opener before and after it is asked for the file of a name, and of
    /// what it returns.
    ghost opens: { FileKinds → Self → List ℕ → Result Self.File FileFault → Self → Type 0 };

    /// What holds of the opener before and after it takes back a file, and of the file as it was read.
    ghost closes: { Self → Self.File → Self → Type 0 };

    /// Opens the file of this name, if it is of these kinds. Nothing is read of it yet.
    ///
    /// # Errors
    ///
    /// Why it can't be opened, or that memory ran out.
    fn open(&mut self, kinds: FileKinds, name: &str) -> Result<Self::File, FileFault>
        ensures opens { opens kinds self.old name.now result self.new }
        ensures unread { IfOk result (λ file. (Self.File.supply file).read.bytes ≡ []) };

    /// Takes back a file, and closes it.
    fn close(&mut self, file: Self::File)
        ensures { closes self.old file self.new };
}

/// Returns the text of a file: its first `limit` bytes, or all where it has fewer. A file that was opened is closed.
///
/// # Errors
///
/// Why it can't be opened or read, or that memory ran out.
pub fn read_file<R: Wait, F: Opener>(
    rt: &R,
    alloc: Global,
    files: &mut F,
    kinds: FileKinds,
    name: &str,
    limit: usize,
) -> Result<Vec<u8>, FileFault>
    ensures read { ReadsFile limit (F.opens kinds) F.closes F.File.supply name.now (plain_text result) files.old
        files.new }
    ensures short { IfOk result (λ bytes. length bytes.items ≤ limit) }
{
    let mut file = files.open(kinds, name)?;
    let text = read_text(rt, alloc, &mut file, limit);
    files.close(file);
    text
}

/// Returns the text that a source has: its first `limit` bytes, or all up to its end where it has fewer.
///
/// # Errors
///
/// `CannotRead` where a read failed, and `NoMemory` where memory ran out.
pub fn read_text<R: Wait, S: Source>(
    rt: &R,
    alloc: Global,
    source: &mut S,
    limit: usize,
) -> Result<Vec<u8>, FileFault>
    ensures read { HasRead limit (plain_text result) (S.supply source.old) (S.supply source.new) }
    ensures short { IfOk result (λ bytes. length bytes.items ≤ limit) }
{
    match read_beginning(rt, alloc, source, limit) {
        Ok(text) => Ok(text),
        Err(ReadFault::CannotRead) => Err(FileFault::CannotRead),
        Err(ReadFault::NoMemory) => Err(FileFault::NoMemory),
    }
}

/// Opens files of the system. Nothing is known of what their names lead to.
#[derive(Drop)]
pub struct SystemFiles<'a, R> {
    rt: &'a R,
}

impl<'a, R> SystemFiles<'a, R> {
    /// An opener of the system's files.
    pub fn new(rt: &'a R) -> SystemFiles<'a, R>
        ensures { result.rt.now ≡ rt.now }
    {
        SystemFiles { rt }
    }
}

impl<'a, R: Wait + Clock + Files> Opener for SystemFiles<'a, R> {
    ghost use Rattle.std.specs.Prelude.{⊤};

    type File = Reading<'a, R, R::File>;

    ghost opens = { λ _ _ _ _ _. ⊤ };

    ghost closes = { λ _ _ _. ⊤ };

    fn open(&mut self, kinds: FileKinds, name: &str) -> Result<Reading<'a, R, R::File>, FileFault> {
        match open_of(self.rt, kinds, name) {
            Ok(file) if is_folder(&file) => Err(FileFault::Folder),
            Ok(file) => Ok(Reading::new(self.rt, file)),
            Err(error) => Err(file_fault(error.kind())),
        }
    }

    fn close(&mut self, _file: Reading<'a, R, R::File>) {}
}

/// Opens a file, if it is of these kinds. For regular files alone it looks at the kind first, since opening a named pipe
/// waits for whoever writes to it: so does one that takes the file's place in between.
///
/// # Errors
///
/// `IsADirectory` where the path leads to a folder and `InvalidInput` where it leads to something else that isn't of these
/// kinds, and else as `fs::open`.
fn open_of<R: Files>(rt: &R, kinds: FileKinds, name: &str) -> io::Result<R::File> {
    if let FileKinds::Regular = kinds {
        let metadata = fs::metadata(rt, name)?;
        if metadata.is_dir() {
            return Err(ErrorKind::IsADirectory.into());
        }
        if !metadata.is_file() {
            return Err(ErrorKind::InvalidInput.into());
        }
    }
    fs::open(rt, name)
}

/// Whether an open file is a folder. Where that can't be known, it is none.
fn is_folder(file: &impl OpenFile) -> bool {
    match file.metadata() {
        Ok(metadata) => metadata.is_dir(),
        Err(_) => false,
    }
}

/// Returns why a file can't be opened.
fn file_fault(kind: ErrorKind) -> FileFault {
    match kind {
        ErrorKind::NotFound => FileFault::Missing,
        ErrorKind::IsADirectory => FileFault::Folder,
        ErrorKind::PermissionDenied => FileFault::Forbidden,
        ErrorKind::OutOfMemory => FileFault::NoMemory,
        _ => FileFault::CannotRead,
    }
}

//! Loading program files.

ghost use Rattle.std.specs.Prelude.{◌≡◌, []};
ghost use Rattle.dap_session.specs.Loads.{logged};
ghost use Rattle.adapter.specs.Loading.{AreLoaded};

use byte_streams::{FileFault, FileKinds, Opener, read_file};
use dap_session::{LoadFault, LoadLog, Loader};
use std::alloc::Global;
use std::snapshot::Snapshot;
use std::sync::Wait;

/// The most bytes of a file that are read: one more than a text may have, so that a longer one is noticed.
const READ_LIMIT: usize = 65_537;

/// Loads files that an opener opens, which was lent. The type keeps true that each answer is what reading the file at the
/// path gave.
#[derive(Drop)]
pub struct FileLoader<'a, R, F: Opener> {
    rt: &'a R,
    alloc: Global,
    files: &'a mut F,
    kinds: FileKinds,
    log: LoadLog,
    lent: Snapshot<F>,
    ghost loaded: { ∥ AreLoaded (F.opens kinds) F.closes F.File.supply lent.value (logged log) files.now ∥₁ },
}

impl<'a, R, F: Opener> FileLoader<'a, R, F> {
    /// A loader that was asked for no file yet, and opens files of these kinds alone.
    pub fn new(rt: &'a R, alloc: Global, files: &'a mut F, kinds: FileKinds) -> FileLoader<'a, R, F>
        ensures log { logged result.log ≡ [] }
        ensures same_files { result.files.ghost_name ≡ files.entry.ghost_name }
        ensures lent { result.lent.value ≡ files.old }
        ensures kinds { result.kinds ≡ kinds }
    {
        let lent = Snapshot::of(&*files);
        FileLoader {
            rt,
            alloc,
            files,
            kinds,
            log: LoadLog::new(),
            lent,
        }
    }

    /// Returns the opener.
    pub fn into_files(self) -> &'a mut F
        ensures same_files { result.ghost_name ≡ self.entry.files.ghost_name }
        ensures loaded { ∥ AreLoaded (F.opens self.entry.kinds) F.closes F.File.supply self.entry.lent.value
            (logged self.entry.log) result.now ∥₁ }
    {
        self.files
    }
}

impl<R: Wait, F: Opener> Loader for FileLoader<'_, R, F> {
    ghost use Rattle.std.specs.Prelude.{ℕ};
    ghost use Rattle.byte_streams.specs.declared.files.FileKinds.{FileKinds};
    ghost use Rattle.dap_session.specs.Loads.{logged};

    ghost loaded = { λ loader. logged loader.log };

    ghost Origin = { ℕ × F × FileKinds };

    ghost origin = { λ loader. (loader.files.ghost_name, loader.lent.value, loader.kinds) };

    fn load(&mut self, path: &str) -> Result<Vec<u8>, LoadFault> {
        let read = read_file(
            self.rt, self.alloc, self.files, self.kinds, path, READ_LIMIT,
        );
        let answer = answer_of(read);
        self.log.note(path, answer)
    }
}

ghost use Rattle.std.specs.Prelude.{◌≤◌, length, IfOk};
ghost use Rattle.byte_streams.specs.Files.{plain_text};
ghost use Rattle.dap_session.specs.Ports.{plain_file};
ghost use Rattle.adapter.specs.Loading.{answer_of, read_limit};

/// Returns the answer of a loader, by what reading the file gave.
fn answer_of(read: Result<Vec<u8>, FileFault>) -> Result<Vec<u8>, LoadFault>
    requires { IfOk read (λ text. length text.items ≤ read_limit) }
    ensures answer { plain_file result ≡ answer_of (plain_text read) }
    ensures short { IfOk result (λ text. length text.items ≤ read_limit) }
{
    match read {
        Ok(text) => Ok(text),
        Err(FileFault::NoMemory) => Err(LoadFault::NoMemory),
        Err(_) => Err(LoadFault::CannotRead),
    }
}

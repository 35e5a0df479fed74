//! The files of a session.

use dap_session::{LoadFault, LoadLog, Loader};
use std::alloc::Global;
use std::process::Abort;

/// A loader of two files: `p.pl0` is the program of a session, and `dot.pl0` the smallest one. No other can be read.
#[derive(Drop)]
pub struct Files<'a, R: Abort> {
    rt: &'a R,
    alloc: Global,
    program: &'a str,
    log: LoadLog,
}

impl<'a, R: Abort> Files<'a, R> {
    pub fn new(rt: &'a R, alloc: Global, program: &'a str) -> Files<'a, R> {
        Files {
            rt,
            alloc,
            program,
            log: LoadLog::new(),
        }
    }
}

impl<R: Abort> Loader for Files<'_, R> {
    ghost use Rattle.std.specs.Prelude.{⊤};
    ghost use Rattle.dap_session.specs.Loads.{logged};

    ghost loaded = { λ files. logged files.log };

    ghost Origin = { ⊤ };

    ghost origin = { λ _. tt };

    fn load(&mut self, path: &str) -> Result<Vec<u8>, LoadFault> {
        let text = match path {
            "p.pl0" => Some(self.program),
            "dot.pl0" => Some("."),
            _ => None,
        };
        let file = match text {
            Some(text) if text.len() <= 65_537 => {
                Ok(Vec::from_slice(self.alloc, text.as_bytes()).expect(self.rt, "memory"))
            }
            _ => Err(LoadFault::CannotRead),
        };
        self.log.note(path, file)
    }
}

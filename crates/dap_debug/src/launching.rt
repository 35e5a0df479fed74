//! Loading a program.

ghost use Rattle.std.specs.Prelude.{◌≡◌, IfOk, Ok, Some, codes, option_map, string_bytes};
ghost use Rattle.serde_json.specs.View.{view};
ghost use Rattle.dap_server.specs.Messages.{plain_reply};
ghost use Rattle.dap_bodies.specs.Arguments.{text_at};
ghost use Rattle.dap_debug.specs.Loading.{IsJsonOf, Launches, LoadsRead, reads_by, situation, unread_text};
ghost use Rattle.dap_debug.specs.Standings.{standing};

use crate::state::{Phase, State};
use byte_streams::{FileFault, FileKinds, Opener, read_file};
use dap_bodies::{initialized, shown_text, text, truth};
use dap_server::Reply;
use debuggee::Language;
use serde_json::Value;
use std::alloc::{AllocError, Global};
use std::sync::Wait;

/// The most bytes of a program's text.
const TEXT_LIMIT: usize = 16 * 1024 * 1024;

impl<L: Language> State<L> {
    /// Loads the program of the file that is asked for, in the place of the one that there is.
    ///
    /// # Errors
    ///
    /// An allocation failed. The program is that from before, or the one that was asked for.
    pub fn launch<R: Wait, F: Opener>(
        &mut self,
        rt: &R,
        alloc: Global,
        files: &mut F,
        arguments: Option<&Value>,
    ) -> Result<Reply, AllocError>
        ensures { IfOk result (λ reply. Launches L.shows.reads_as (reads_by F.opens F.closes F.File.supply)
            (option_map (λ v. view v.now) arguments.entry) (situation (standing self.old) files.old)
            (plain_reply reply) (situation (standing self.new) files.new)) }
    {
        if let Phase::Running(_, _) = self.phase {
            return Reply::refused(alloc, "a program runs");
        }
        let Some(path) = text(arguments, "program") else {
            return Reply::refused(alloc, "`program` is missing");
        };
        match read_file(rt, alloc, files, FileKinds::Regular, path, TEXT_LIMIT + 1) {
            Ok(bytes) => self.load(alloc, arguments, path, bytes),
            Err(FileFault::NoMemory) => Err(AllocError),
            Err(why) => Reply::refused(alloc, unread_text(why)),
        }
    }

    /// Loads the program of what was read of the file at this path.
    fn load(
        &mut self,
        alloc: Global,
        arguments: Option<&Value>,
        path: &str,
        bytes: Vec<u8>,
    ) -> Result<Reply, AllocError>
        requires { text_at (codes "program") (option_map (λ v. view v.now) arguments) ≡ Some path.now }
        ensures { IfOk result (λ reply. LoadsRead L.shows.reads_as (option_map (λ v. view v.now) arguments.entry)
            (Ok bytes.items) (standing self.old) (plain_reply reply) (standing self.new)) }
    {
        if bytes.len() > TEXT_LIMIT {
            return Reply::refused(alloc, "tooLong");
        }
        let Ok(source) = String::from_utf8(bytes) else {
            return Reply::refused(alloc, "the program isn't UTF-8");
        };
        let json = json_of(alloc, arguments)?;
        match L::load(alloc, source.as_str(), json.as_str())? {
            Ok(program) => {
                self.path = String::from_str(alloc, path)?;
                self.fault = None;
                self.breakpoints = Vec::new(alloc);
                self.phase = Phase::Configuring(program, truth(arguments, "stopOnEntry"));
                let mut reply = Reply::done(alloc);
                reply.push(initialized(alloc)?)?;
                Ok(reply)
            }
            Err(mistake) => Reply::refused(alloc, shown_text(mistake)?.as_str()),
        }
    }
}

/// Returns a JSON text of arguments; an empty text where there are none.
fn json_of(alloc: Global, arguments: Option<&Value>) -> Result<String, AllocError>
    ensures { IfOk result (λ text. IsJsonOf (option_map (λ v. view v.now) arguments.entry) (string_bytes text)) }
{
    match arguments {
        Some(value) => value.to_string(alloc),
        None => Ok(String::new(alloc)),
    }
}

/// Returns what is told of a file that isn't read.
fn unread_text(why: FileFault) -> &'static str
    ensures { result.now ≡ unread_text why }
{
    match why {
        FileFault::Missing => "the program can't be read: there is no such file",
        FileFault::Folder => "the program can't be read: it is a folder",
        FileFault::Forbidden => "the program can't be read: it is not allowed",
        FileFault::CannotRead | FileFault::NoMemory => "the program can't be read",
    }
}

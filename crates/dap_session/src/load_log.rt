//! What a loader was asked for and returned, as proofs see it.

ghost use Rattle.std.specs.Prelude.{◌≡◌, ◌++◌, ◌∷◌, []};
ghost use Rattle.dap_session.specs.Loads.{logged};
ghost use Rattle.dap_session.specs.Ports.{load_of, plain_file};

use dap_history::LoadFault;
use dbg_runner::GhostList;

/// The paths that a loader was asked for and its answers. Only proofs read it, and it takes no memory.
#[derive(Drop)]
pub struct LoadLog {
    loads: GhostList<(GhostList<u8>, Result<Vec<u8>, LoadFault>)>,
}

impl LoadLog {
    /// Returns the log of a loader that was asked for no file yet.
    pub fn new() -> LoadLog
        ensures { logged result ≡ [] }
    {
        LoadLog {
            loads: GhostList::new(),
        }
    }

    /// Notes what a loader answers for a path, and returns that answer.
    ///
    /// # Errors
    ///
    /// The answer, if it is a fault.
    pub fn note(
        &mut self,
        path: &str,
        answer: Result<Vec<u8>, LoadFault>,
    ) -> Result<Vec<u8>, LoadFault>
        ensures same { result ≡ answer }
        ensures noted { logged self.new ≡ logged self.old ++ load_of path.now (plain_file answer) ∷ [] }
    {
        let load = (bytes_of(path), answer);
        self.loads = self.loads.and(&load);
        load.1
    }
}

/// Returns the bytes of a text, for proofs alone.
fn bytes_of(text: &str) -> GhostList<u8>
    ensures { result.entries ≡ text.now }
{
    let mut bytes = GhostList::new();
    let mut rest = text.as_bytes();
    while let [first, after @ ..] = rest {
        bytes = bytes.and(first);
        rest = after;
    }
    bytes
}

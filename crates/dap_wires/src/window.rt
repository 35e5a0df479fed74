//! A window for the outputs, numbers and logs, on their way from a runner to a session: so many may be there at once. No
//! contract depends on it.

use crossbeam_utils::sync::{Parker, Unparker};
use std::alloc::{AllocError, Global};
use std::sync::atomic::{AtomicBool, AtomicUsize, Ordering};
use std::sync::{Arc, Wait};

/// How many outputs may be in the window. Before the answer to a request a client gets at most these, and the frames that
/// are at the writer and in the pipe; between the answer to a pause and the stop, these and those of one more slice. Two
/// slices that print at each step have room, so that the runner works beside the session.
const WINDOW_LIMIT: usize = 512;

/// What both ends share.
#[derive(Drop)]
struct Window {
    // How many outputs are inside.
    outputs: AtomicUsize,
    // Whether any number may come in, since the session has left.
    is_open: AtomicBool,
}

/// The end of the runner, where outputs come in.
#[derive(Drop)]
pub(crate) struct WindowEntry {
    window: Arc<Window, Global>,
    parker: Parker,
}

/// The end of the session, where outputs go out. Dropping it opens the window for good.
pub(crate) struct WindowExit {
    window: Arc<Window, Global>,
    unparker: Unparker,
    // How many outputs the session works on. They are still inside.
    in_hand: usize,
}

/// Makes a window. Returns both of its ends.
///
/// # Errors
///
/// `AllocError`, where an allocation failed.
pub(crate) fn output_window(alloc: Global) -> Result<(WindowEntry, WindowExit), AllocError> {
    let window = Window {
        outputs: AtomicUsize::new(0),
        is_open: AtomicBool::new(false),
    };
    let window = Arc::new(alloc, window)?;
    let other = Arc::try_clone(&window)?;
    let parker = Parker::new(alloc)?;
    let unparker = parker.unparker().clone()?;
    Ok((
        WindowEntry { window, parker },
        WindowExit {
            window: other,
            unparker,
            in_hand: 0,
        },
    ))
}

impl Window {
    /// Whether so many outputs may come in. Any number may where none is inside.
    fn has_room(&self, outputs: usize) -> bool {
        if self.is_open.load(Ordering::SeqCst) {
            return true;
        }
        let inside = self.outputs.load(Ordering::SeqCst);
        inside == 0 || inside.saturating_add(outputs) <= WINDOW_LIMIT
    }
}

impl WindowEntry {
    /// Lets so many outputs in. Blocks until there is room for them.
    pub(crate) fn enter<R: Wait>(&self, rt: &R, outputs: usize) {
        if outputs == 0 {
            return;
        }
        for _ in rt.forever() {
            if self.window.has_room(outputs) {
                self.window.outputs.fetch_add(outputs, Ordering::SeqCst);
                return;
            }
            self.parker.park(rt);
        }
        unreachable!()
    }
}

impl WindowExit {
    /// Notes that the session works on so many outputs.
    pub(crate) fn take(&mut self, outputs: usize) {
        self.in_hand = outputs;
    }

    /// Lets out the outputs that the session has worked on.
    pub(crate) fn let_out(&mut self) {
        if self.in_hand == 0 {
            return;
        }
        self.window
            .outputs
            .fetch_sub(self.in_hand, Ordering::SeqCst);
        self.in_hand = 0;
        self.unparker.unpark();
    }
}

impl Drop for WindowExit {
    fn drop(self) {
        self.window.is_open.store(true, Ordering::SeqCst);
        self.unparker.unpark();
        let Self {
            window: _,
            unparker: _,
            in_hand: _,
        } = self;
    }
}

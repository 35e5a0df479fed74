//! Two tasks side by side, where a thread may not be startable. Contracts speak of what a task has and returns through a
//! type parameter, so that it may own a `&mut` and return it.

ghost use Rattle.std.specs.Prelude.{◌≡◌, IfOk, IfErr, IfSome};

use std::snapshot::Snapshot;
use std::sync::Wait;
use std::thread;
use std::thread::{Promise, PromisedHandle, Scope, Threads};

/// Work for a thread.
pub(crate) trait Task: Drop {
    /// What it returns.
    type Output: Drop;

    /// What must hold for it to run.
    ghost can_run: { Self → Type 0 };

    /// What holds of the task and what it returned.
    ghost gives: { Self → Self.Output → Type 0 };

    /// Does the work.
    fn run(self) -> Self::Output
        requires { can_run self }
        ensures { gives self result };
}

/// The promise that a task was run.
#[derive(Drop)]
pub(crate) struct Ran<T: Task>(Snapshot<T>);

impl<T: Task> Promise<T::Output> for Ran<T> {
    ghost kept_by = { λ p r. T.gives p.0.value r };
}

/// Does a task in a thread of its own and another in this thread, and joins both.
///
/// # Errors
///
/// Where a thread can't be started, the other task is returned, and wasn't run.
pub(crate) fn run_beside<
    R: Threads + Wait,
    S: Task<Output = A> + Send,
    T: Task<Output = B>,
    A: Send + Drop,
    B: Drop,
>(rt: &R, beside: S, here: T) -> Result<(A, B), T>
    requires { S.can_run beside × T.can_run here }
    ensures ok { IfOk result (λ r. S.gives beside r.0 × T.gives here r.1) }
    ensures err { IfErr result (λ back. back ≡ here) }
{
    thread::scope(
        thread::scope_env(),
        rt,
        |scope| -> Result<(A, B), T>
            requires { S.can_run beside × T.can_run here }
            ensures ok { IfOk result (λ r. S.gives beside r.0 × T.gives here r.1) }
            ensures err { IfErr result (λ back. back ≡ here) }
        {
            let Some(handle) = start(scope, beside) else {
                return Err(here);
            };
            let b = here.run();
            Ok((handle.join(rt), b))
        },
    )
}

/// Starts a thread of a scope that does a task. Where no thread can be made, it drops the task and returns `None`.
fn start<'s, E, T: Task<Output = A> + Send + 's, A: Send + Drop + 's>(
    scope: &Scope<'s, E>,
    task: T,
) -> Option<PromisedHandle<A, Ran<T>>>
    requires { T.can_run task }
    ensures { IfSome result (λ handle. handle.promise.0.value ≡ task) }
{
    let started = scope.spawn_with(
        Ran(Snapshot::of(&task)),
        move || -> A
            requires { T.can_run task }
            ensures { T.gives task result }
        { task.run() },
    );
    started.ok()
}

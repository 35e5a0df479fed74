//! Tasks for the threads of a scope, where a thread may not be startable. Contracts speak of what a task has and returns
//! through a type parameter, so that it may own a `&mut` and return it.

ghost use Rattle.std.specs.Prelude.{◌≡◌, true};
ghost use Rattle.adapter.specs.Tasks.{EndsAs, BeginsAs};

use std::snapshot::Snapshot;
use std::sync::Wait;
use std::sync::atomic::{AtomicBool, Ordering};
use std::thread;
use std::thread::{Promise, PromisedHandle, Scope, Threads};

/// Work for a thread.
pub trait Task: Drop {
    ghost use Rattle.std.specs.Prelude.{◌≡◌, Bool, true};

    /// What it returns.
    type Output: Drop;

    /// What must hold for it to run.
    ghost can_run: { Self → Type 0 };

    /// What holds of the task and what it returned.
    ghost gives: { Self → Self.Output → Type 0 };

    /// Whether what it returned says that it was run.
    ghost is_done: { Self.Output → Bool };

    /// Does the work.
    fn run(self) -> Self::Output
        requires { can_run self }
        ensures gives { gives self result }
        ensures done { is_done result ≡ true };
}

/// A task that may be left undone.
pub trait OptionalTask: Task {
    ghost use Rattle.std.specs.Prelude.{◌≡◌, false};

    /// Lets others who wait for it know that the work will not be done, and returns what it has.
    fn leave(self) -> Self::Output
        requires { Self.can_run self }
        ensures gives { Self.gives self result }
        ensures undone { Self.is_done result ≡ false };
}

/// Sees what the first task and the last one returned, as soon as both have ended: the others may go on.
pub trait Witness<A, D>: Drop {
    /// What it returns.
    type Output: Drop;

    /// What holds of the witness, of what it saw, and of what it returned.
    ghost sees: { Self → A → D → Self.Output → Type 0 };

    /// Sees what the two returned.
    fn see(self, first: &A, last: &D) -> Self::Output
        ensures { sees self first.now last.now result };
}

/// The promise that a task was run, or is given back.
#[derive(Drop)]
pub struct Ran<T: Task>(Snapshot<T>);

impl<T: Task> Promise<Result<T::Output, T>> for Ran<T> {
    ghost use Rattle.std.specs.Prelude.{◌≡◌, true};
    ghost use Rattle.adapter.specs.Tasks.{EndsAs};

    ghost kept_by = { λ p r. EndsAs (λ output. T.gives p.0.value output × (T.is_done output ≡ true)) p.0.value r };
}

/// A task in a thread of its own; or, where none could be started, what it returned in this thread, or the task.
#[derive(Drop)]
struct Begun<A: Drop, T: Task<Output = A>> {
    task: Snapshot<T>,
    at: Result<PromisedHandle<Result<A, T>, Ran<T>>, Result<A, T>>,
}

impl<A: Send + Drop, T: Task<Output = A> + Send> Begun<A, T> {
    /// Waits for its thread. Returns what the task returned, or the task, if it is given back.
    fn end<R: Threads + Wait>(self, rt: &R) -> Result<A, T>
        requires { BeginsAs (λ handle. handle.promise.0.value) (λ output. T.gives self.task.value output
            × (T.is_done output ≡ true)) self.task.value self.at }
        ensures { EndsAs (λ output. T.gives self.task.value output × (T.is_done output ≡ true)) self.task.value result }
    {
        let Begun { at, .. } = self;
        match at {
            Ok(handle) => handle.join(rt),
            Err(end) => end,
        }
    }

    /// Waits for its thread, and does the task here if it is given back.
    fn output<R: Threads + Wait>(self, rt: &R) -> A
        requires can_run { T.can_run self.task.value }
        requires begins { BeginsAs (λ handle. handle.promise.0.value) (λ output. T.gives self.task.value output
            × (T.is_done output ≡ true)) self.task.value self.at }
        ensures gives { T.gives self.task.value result }
        ensures done { T.is_done result ≡ true }
    {
        match self.end(rt) {
            Ok(output) => output,
            Err(task) => task.run(),
        }
    }
}

/// Does three tasks in threads of their own and the last one in this thread, and joins all. The witness sees what the first
/// and the last returned before the others are joined.
///
/// Where a thread can't be started, the third task and the last are left undone, and of the first two this thread does what
/// no other does.
pub fn run_beside<
    R: Threads + Wait,
    S: Task<Output = A> + Send,
    T: Task<Output = B> + Send,
    U: OptionalTask<Output = C> + Send,
    V: OptionalTask<Output = D>,
    W: Witness<A, D, Output = X>,
    A: Send + Drop,
    B: Send + Drop,
    C: Send + Drop,
    D: Drop,
    X: Drop,
>(rt: &R, first: S, second: T, third: U, last: V, witness: W) -> (A, B, C, D, X)
    requires { S.can_run first × T.can_run second × U.can_run third × V.can_run last }
    ensures gives { S.gives first result.0 × T.gives second result.1 × U.gives third result.2 × V.gives last result.3 }
    ensures sees { W.sees witness result.0 result.3 result.4 }
    ensures done { U.is_done result.2 ≡ V.is_done result.3 }
{
    let is_short = AtomicBool::new(false);
    let short = &is_short;
    thread::scope(
        thread::scope_env(),
        rt,
        |scope| -> (A, B, C, D, X)
            requires { S.can_run first × T.can_run second × U.can_run third × V.can_run last }
            ensures gives { S.gives first result.0 × T.gives second result.1 × U.gives third result.2
                × V.gives last result.3 }
            ensures sees { W.sees witness result.0 result.3 result.4 }
            ensures done { U.is_done result.2 ≡ V.is_done result.3 }
        {
            let one = begin(scope, first, short);
            let two = begin(scope, second, short);
            let three = begin(scope, third, short);
            if short.load(Ordering::SeqCst) {
                let (c, d) = leave_both(rt, three, last);
                let (a, b, x) = end_both(rt, one, two, &d, witness);
                return (a, b, c, d, x);
            }
            let d = last.run();
            let (a, b, x) = end_both(rt, one, two, &d, witness);
            (a, b, three.output(rt), d, x)
        },
    )
}

/// Leaves the third task and the last undone. If the third is done nevertheless, it does the last.
fn leave_both<
    R: Threads + Wait,
    U: OptionalTask<Output = C> + Send,
    V: OptionalTask<Output = D>,
    C: Send + Drop,
    D: Drop,
>(rt: &R, third: Begun<C, U>, last: V) -> (C, D)
    requires can_run { U.can_run third.task.value × V.can_run last }
    requires third { BeginsAs (λ handle. handle.promise.0.value) (λ output. U.gives third.task.value output
        × (U.is_done output ≡ true)) third.task.value third.at }
    ensures gives { U.gives third.task.value result.0 × V.gives last result.1 }
    ensures done { U.is_done result.0 ≡ V.is_done result.1 }
{
    match third.end(rt) {
        Err(third) => (third.leave(), last.leave()),
        Ok(c) => (c, last.run()),
    }
}

/// Ends the first two tasks. The witness sees what the first and the last returned before the second is joined.
fn end_both<
    R: Threads + Wait,
    S: Task<Output = A> + Send,
    T: Task<Output = B> + Send,
    W: Witness<A, D, Output = X>,
    A: Send + Drop,
    B: Send + Drop,
    D,
    X: Drop,
>(rt: &R, first: Begun<A, S>, second: Begun<B, T>, last: &D, witness: W) -> (A, B, X)
    requires can_run { S.can_run first.task.value × T.can_run second.task.value }
    requires first { BeginsAs (λ handle. handle.promise.0.value) (λ output. S.gives first.task.value output
        × (S.is_done output ≡ true)) first.task.value first.at }
    requires second { BeginsAs (λ handle. handle.promise.0.value) (λ output. T.gives second.task.value output
        × (T.is_done output ≡ true)) second.task.value second.at }
    ensures gives { S.gives first.task.value result.0 × T.gives second.task.value result.1 }
    ensures sees { W.sees witness result.0 last.now result.2 }
{
    let a = first.output(rt);
    let x = witness.see(&a, last);
    (a, second.output(rt), x)
}

/// Starts a thread of a scope that does a task. Once one couldn't be started, a thread that hasn't begun gives its task
/// back; so does the closure of the one that couldn't, which is called here, since a task can't be had out of a closure.
fn begin<'s, E, A: Send + Drop + 's, T: Task<Output = A> + Send + 's>(
    scope: &Scope<'s, E>,
    task: T,
    is_short: &'s AtomicBool,
) -> Begun<A, T>
    requires { T.can_run task }
    ensures task { result.task.value ≡ task }
    ensures begins { BeginsAs (λ handle. handle.promise.0.value) (λ output. T.gives result.task.value output
        × (T.is_done output ≡ true)) result.task.value result.at }
{
    let begun = Snapshot::of(&task);
    let started = scope.spawn_with(
        Ran(Snapshot::of(&task)),
        move || -> Result<A, T>
            requires { T.can_run task }
            ensures { EndsAs (λ output. T.gives task output × (T.is_done output ≡ true)) task result }
        {
            if is_short.load(Ordering::SeqCst) {
                return Err(task);
            }
            Ok(task.run())
        },
    );
    let at = match started {
        Ok(handle) => Ok(handle),
        Err(refused) => {
            is_short.store(true, Ordering::SeqCst);
            let here = refused.value;
            Err(here())
        }
    };
    Begun { task: begun, at }
}

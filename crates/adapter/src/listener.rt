//! Telling how serving ended as soon as that is known.

ghost use Rattle.std.specs.Prelude.{◌≡◌};
ghost use Rattle.adapter.specs.ThreadTasks.{outcome_if_driven};

use crate::serving::{ServeFault, Served, outcome};
use crate::tasks::Witness;
use crate::thread_tasks::{SessionOutput, WriterOutput};

/// Is told how serving ended.
pub trait EndListener {
    ghost use Rattle.std.specs.Prelude.{Result};
    ghost use Rattle.adapter.specs.declared.serving.Served.{Served};
    ghost use Rattle.adapter.specs.declared.serving.ServeFault.{ServeFault};

    /// What holds of the listener before and after it is told an outcome.
    ghost tells: { Self → Self → Result Served ServeFault → Type 0 };

    /// Takes the outcome.
    fn tell(&mut self, outcome: Result<Served, ServeFault>)
        ensures { tells self.old self.new outcome };
}

/// A listener that does nothing.
#[derive(Drop)]
pub struct NoListener;

impl EndListener for NoListener {
    ghost use Rattle.std.specs.Prelude.{⊤};

    ghost tells = { λ _ _ _. ⊤ };

    fn tell(&mut self, _outcome: Result<Served, ServeFault>) {}
}

/// Tells the listener how serving ended, and returns that.
pub(crate) fn tell<E: EndListener>(
    listener: &mut E,
    outcome: Result<Served, ServeFault>,
) -> Result<Served, ServeFault>
    ensures same { result ≡ outcome }
    ensures told { E.tells listener.old listener.new outcome }
{
    listener.tell(outcome);
    outcome
}

/// A witness of how the writer and the session ended, which tells a listener that was lent.
#[derive(Drop)]
pub(crate) struct ListenerWitness<'a, E> {
    listener: &'a mut E,
}

impl<'a, E> ListenerWitness<'a, E> {
    /// A witness that tells `listener`.
    pub(crate) fn new(listener: &'a mut E) -> ListenerWitness<'a, E>
        ensures same_listener { result.listener.ghost_name ≡ listener.entry.ghost_name }
        ensures listener { result.listener.now ≡ listener.old }
    {
        ListenerWitness { listener }
    }
}

impl<'a, 'o, 'l, O, L, R: Drop, E: EndListener> Witness<
    WriterOutput<'o, O>,
    SessionOutput<'l, L, R>,
> for ListenerWitness<'a, E> {
    type Output = &'a mut E;

    ghost sees = { λ w writer session listener. (listener.ghost_name ≡ w.listener.ghost_name)
        × E.tells w.listener.now listener.now (outcome_if_driven writer.wrote session.closed) };

    fn see(self, writer: &WriterOutput<'o, O>, session: &SessionOutput<'l, L, R>) -> &'a mut E {
        let ListenerWitness { listener } = self;
        listener.tell(outcome(&writer.wrote, &session.closed));
        listener
    }
}

//! How a session closes when its input ends.

use super::Session;
use super::sending::push;
use crate::ports::Orders;
use dap_history::{Closed, Ending, SessionFault};
use dbg_runner::Order;

impl Session {
    ghost use Rattle.std.specs.Prelude.{◌≡◌, Some, OnOk};
    ghost use Rattle.dap_history.specs.declared.ending.Ending.TheVariants as ending;
    ghost use Rattle.dap_session.specs.Handling.{PushesQuit};

    /// Orders the runner to quit, and closes the session.
    pub(super) fn close<D: Orders>(
        &mut self,
        closed: Closed,
        orders: &mut D,
    ) -> Result<(), SessionFault>
        ensures quits { PushesQuit result (D.seen orders.old) (D.seen orders.new) }
        ensures ending { OnOk result (self.new.ending ≡ Some (ending.Closed closed)) }
        ensures orders { D.origin orders.new ≡ D.origin orders.old }
    {
        push(Some(Order::Quit), orders)?;
        self.ending = Some(Ending::Closed(closed));
        Ok(())
    }
}

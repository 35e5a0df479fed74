//! Gates, which the slices of a run pass.

ghost use Rattle.std.specs.Prelude.{◌≡◌, ◌++◌, []};
ghost use Rattle.std.specs.List.{flat_map};
ghost use Rattle.dbg_runner.specs.Queues.{passed_in};

use dbg_plan::Debuggee;
use dbg_runner::{Gate, GhostList, Order, Ports, Report};
use std::snapshot::Snapshot;

/// Lets every slice pass at once.
#[derive(Drop)]
pub struct OpenGate {
    passed: GhostList<(u64, u64)>,
}

impl OpenGate {
    /// A gate that no slice has passed yet.
    pub fn new() -> OpenGate
        ensures { result.passed.entries ≡ [] }
    {
        OpenGate {
            passed: GhostList::new(),
        }
    }
}

impl Gate for OpenGate {
    ghost passed = { λ gate. gate.passed.entries };

    fn pass(&mut self, run: u64, slice: u64) {
        self.passed = self.passed.and(&(run, slice));
    }
}

/// Ports of a runner with a gate that was lent, which each slice passes too. The type keeps true that what passed the gate
/// since it was lent is what the acts say.
pub struct Gated<'a, P: Ports, G: Gate> {
    ports: P,
    gate: &'a mut G,
    lent: Snapshot<G>,
    ghost passed: { G.passed gate.now ≡ G.passed lent.value ++ flat_map passed_in (P.acts ports) },
}

impl<'a, P: Ports, G: Gate> Gated<'a, P, G> {
    /// Adds a gate to ports of a runner that has done nothing yet.
    pub fn new(ports: P, gate: &'a mut G) -> Gated<'a, P, G>
        requires { P.acts ports ≡ [] }
        ensures ports { result.ports ≡ ports }
        ensures same_gate { result.gate.ghost_name ≡ gate.entry.ghost_name }
        ensures lent { result.lent.value ≡ gate.old }
    {
        let lent = Snapshot::of(&*gate);
        Gated { ports, gate, lent }
    }

    /// Returns the ports and the gate.
    pub fn into_parts(self) -> (P, &'a mut G)
        ensures ports { result.0 ≡ self.entry.ports }
        ensures same_gate { result.1.ghost_name ≡ self.entry.gate.ghost_name }
        ensures passed { G.passed result.1.now ≡ G.passed self.entry.lent.value
            ++ flat_map passed_in (P.acts self.entry.ports) }
    {
        let Gated {
            ports,
            gate,
            lent: _,
        } = self;
        (ports, gate)
    }
}

impl<P: Ports, G: Gate> Ports for Gated<'_, P, G> {
    ghost use Rattle.std.specs.Prelude.{ℕ};

    ghost acts = { λ gated. P.acts gated.ports };

    ghost Origin = { P.Origin × ℕ × G };

    ghost origin = { λ gated. (P.origin gated.ports, gated.gate.ghost_name, gated.lent.value) };

    ghost may_wait = { λ gated. P.may_wait gated.ports };

    ghost may_pass = { λ gated. P.may_pass gated.ports };

    fn next(&mut self) -> Order {
        self.ports.next()
    }

    fn poll(&mut self) -> Option<Order> {
        self.ports.poll()
    }

    fn pass(&mut self, run: u64, slice: u64, debuggee: &Debuggee) {
        self.ports.pass(run, slice, debuggee);
        self.gate.pass(run, slice);
    }

    fn send(&mut self, report: Report) -> Result<(), Report> {
        self.ports.send(report)
    }
}

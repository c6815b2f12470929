//! A machine in memory of its own.

ghost use Rattle.std.specs.Prelude.{◌≡◌, ◌≤◌, ℕ, List, IfOk};

use crate::machine::Machine;
use std::alloc::Global;
use std::marker::Model;
use value_types::Memory;

/// A machine in memory of its own, so that a turn moves a pointer. In a clause it is the machine.
#[derive(Drop)]
pub struct MachineBox<M> {
    inner: Box<M>,
}

impl<M> Model for MachineBox<M> {
    ghost Value = { M };

    ghost view = { λ b. b.inner.value };
}

impl<M: Machine> MachineBox<M> {
    /// Puts a machine into memory of its own.
    pub fn new(alloc: Global, machine: M) -> Result<MachineBox<M>, Memory>
        ensures { IfOk result (λ b. b ≡ machine) }
    {
        Ok(MachineBox {
            inner: Box::new(alloc, machine)?,
        })
    }

    /// One step of the machine.
    pub fn step(&mut self, number: u32, call: &M::Call) -> M::Reply
        requires number { (1 ≤ number) × (number ≤ 64) }
        requires allowed { (steps : List (M.Call × M.Reply)) × M.knows self.old number steps × M.ready number steps call.now }
        ensures { M.moved self.old number call.now result self.new }
    {
        self.inner.step(number, call)
    }

    /// Gives the machine.
    pub fn into_machine(self) -> M
        ensures { result ≡ self }
    {
        Box::into_inner(self.inner)
    }
}

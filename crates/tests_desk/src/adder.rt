//! A machine that adds.

ghost use Rattle.std.specs.Prelude.{◌≡◌, []};
ghost use Rattle.tests_desk.specs.Adding.{AdderState};

use std::alloc::Allocator;
use std::marker::Model;
use turn_desk::Machine;

/// What a call of the machine is answered.
#[derive(Clone, Copy, PartialEq, Eq)]
pub enum AddReply {
    /// It was added; this was the sum before.
    Was(u64),
    /// There was no memory to store it, and nothing was added.
    Memory,
}

/// Adds whole numbers modulo 2^64, and stores each that it has added with the number of the seat.
#[derive(Drop)]
pub struct Adder<A: Allocator> {
    sum: u64,
    calls: Vec<(u32, u64), A>,
}

impl<A: Allocator> Model for Adder<A> {
    ghost Value = { AdderState };

    ghost view = { λ a. record { sum = a.sum; calls = a.calls.items } };
}

impl<A: Allocator> Adder<A> {
    /// A machine that has added nothing.
    pub fn new(alloc: A) -> Adder<A>
        ensures { result ≡ record { sum = 0; calls = [] } }
    {
        Adder {
            sum: 0,
            calls: Vec::new(alloc),
        }
    }

    /// The sum.
    pub fn sum(&self) -> u64
        ensures { result ≡ self.now.sum }
    {
        self.sum
    }

    /// What was added, each with the number of its seat.
    pub fn calls(&self) -> &[(u32, u64)]
        ensures { result.now ≡ self.now.calls }
    {
        self.calls.as_slice()
    }
}

impl<A: Allocator> Machine for Adder<A> {
    ghost use Rattle.tests_desk.specs.Adding.{Adds, IsToldBy};
    ghost use Rattle.tests_desk.specs.AddingLaws.{story_grows, own_steps, other_steps, no_steps};

    type Call = u64;

    type Reply = AddReply;

    type Event = (u32, u64);

    ghost story = { λ a. a.calls };

    ghost moved = { λ a number call reply b. Adds a number call reply b };

    ghost ready = { λ number steps call. Unit {0} };

    ghost knows = { λ a number steps. IsToldBy a.calls number steps };

    ghost within = { λ story number steps. IsToldBy story number steps };

    ghost opening = { λ a. a.calls ≡ [] };

    fn step(&mut self, number: u32, call: &u64) -> AddReply {
        let before = self.sum;
        if self.calls.push((number, *call)).is_err() {
            return AddReply::Memory;
        }
        self.sum = before.wrapping_add(*call);
        AddReply::Was(before)
    }

    ghost story_grows = { λ a b number call reply m. story_grows a b number call reply m };

    ghost own_steps = { λ a b number steps call reply k r m. own_steps a b number steps call reply k m };

    ghost other_steps = { λ a b number steps call reply other others k r m ne o. other_steps a b number call reply other others ne o m };

    ghost no_steps = { λ a number o. no_steps a number o };

    ghost steps_within = { λ a number steps k. k };
}

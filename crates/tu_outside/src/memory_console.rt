ghost use Rattle.std.specs.Prelude.{◌≡◌, ◌+◌, ◌≤◌, ◌++◌, length, vec_len, vec_capacity, Some, OnOk, OnErr, IfOk, is_ok, slice_get};
ghost use Rattle.tu_outside.specs.Plan.{admits};
ghost use Rattle.tu_outside.specs.Causes.{HasCause};
ghost use Rattle.tu_outside.specs.Told.{with_more, HasSomeOf};
ghost use Rattle.tu_outside.specs.Events.{puts, got, Takes};
ghost use Rattle.tu_outside.specs.Devices.{fresh_console, after_put, after_get};

use crate::plan::Plan;
use crate::{Console, ConsoleFault};
use std::alloc::Global;
use std::marker::Model;
use tu_base::{Bytes, Event, Memory, Numbers};

/// A console in memory, with a given input. It keeps its events, and chosen calls fail.
pub struct MemoryConsole {
    input: Bytes,
    taken: usize,
    record_list: Vec<Event>,
    plan: Plan,
}

// Written, so that a crate that drops this calls it, and does not prove anew how each part is dropped.
impl Drop for MemoryConsole {
    fn drop(self) {
        let MemoryConsole {
            input: _,
            taken: _,
            record_list: _,
            plan: _,
        } = self;
    }
}

impl Model for MemoryConsole {
    ghost use Rattle.std.specs.Prelude.{◌+◌, ◌≤◌, drop, vec_len, vec_capacity};
    ghost use Rattle.tu_outside.specs.Devices.{ConsoleState};

    ghost Value = { ConsoleState };

    ghost view = { λ c. record { left = drop c.taken c.input; events = c.record_list.items; plan = c.plan } };

    // What is left of the reserve is there, so a record takes no memory.
    ghost invariant = { λ c. vec_len c.record_list + c.plan.reserve ≤ vec_capacity c.record_list };
}

// Appends a Put of each byte to a list that has room for them.
fn append_puts(list: &mut Vec<Event>, bytes: &[u8])
    requires { vec_len list.old + length bytes.now ≤ vec_capacity list.old }
    ensures items { list.new.items ≡ list.old.items ++ puts bytes.now }
    ensures len { vec_len list.new ≡ vec_len list.old + length bytes.now }
    ensures capacity { vec_capacity list.old ≤ vec_capacity list.new }
{
    for byte in bytes {
        list.push(Event::Put(*byte)).unwrap();
    }
}

impl MemoryConsole {
    /// A console with this input, no events and no reserve. The calls of `put` and `get`, counted
    /// from 1, fail at the numbers in `fail`.
    pub fn make(alloc: Global, input: &Bytes, fail: &Numbers) -> Result<MemoryConsole, Memory>
        ensures { IfOk result (λ console. console ≡ fresh_console input.now fail.now) }
    {
        let plan = Plan::new(alloc, fail)?;
        let input = Bytes::from_slice(alloc, input.as_slice())?;
        Ok(MemoryConsole {
            input,
            taken: 0,
            record_list: Vec::new(alloc),
            plan,
        })
    }

    /// Sets the reserve: how many more events can be recorded. A call that would record more fails.
    pub fn reserve(&mut self, events: u64) -> Result<(), Memory>
        ensures ok { OnOk result (self.new ≡ record self.old { plan = record self.old.plan { reserve = events } }) }
        ensures err { OnErr result (self.new ≡ self.old) }
    {
        self.record_list.reserve(events as usize)?;
        self.plan.set_reserve(events);
        Ok(())
    }

    /// The events so far, the oldest first.
    pub fn event_list(&self) -> &[Event]
        ensures { result.now ≡ self.now.events }
    {
        self.record_list.as_slice()
    }

    /// How many calls failed.
    pub fn fault_count(&self) -> u64
        ensures { result ≡ self.now.plan.faults }
    {
        self.plan.faults()
    }
}

impl Console for MemoryConsole {
    ghost left = { λ c. Some c.left };

    ghost events = { λ c. Some c.events };

    ghost faults = { λ c. c.plan.faults };

    #[tactic(auto, using(crate::proofs::ToldLemmas::some_of_all, crate::proofs::ToldLemmas::some_of_none))]
    fn put(&mut self, bytes: &[u8]) -> Result<(), ConsoleFault>
        ensures works { is_ok result ≡ admits self.old.plan (length bytes.now) }
        ensures after { self.new ≡ after_put self.old bytes.now }
        ensures cut { HasSomeOf (Some self.old.events) (Some self.new.events) (puts bytes.now) }
    {
        if !self.plan.admit(bytes.len() as u64) {
            return Err(ConsoleFault);
        }
        append_puts(&mut self.record_list, bytes);
        Ok(())
    }

    fn get(&mut self) -> Result<Option<u8>, ConsoleFault>
        ensures works { is_ok result ≡ admits self.old.plan 1 }
        ensures byte { IfOk result (λ byte. byte ≡ slice_get self.old.left 0) }
        ensures after { self.new ≡ after_get self.old }
    {
        if !self.plan.admit(1) {
            return Err(ConsoleFault);
        }
        let input = self.input.as_slice();
        if self.taken < input.len() {
            let byte = input[self.taken];
            self.taken += 1;
            self.record_list.push(Event::Got(byte)).unwrap();
            Ok(Some(byte))
        } else {
            self.record_list.push(Event::AtEnd).unwrap();
            Ok(None)
        }
    }
}

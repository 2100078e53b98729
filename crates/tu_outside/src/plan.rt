// Which calls of a device in memory fail: those with chosen numbers, and those whose record does
// not fit what is left of the reserve.
ghost use Rattle.std.specs.Prelude.{◌≡◌, IfOk};
ghost use Rattle.tu_outside.specs.Plan.{fresh, admits, after_call};

use std::alloc::Global;
use std::marker::Model;
use tu_base::{Memory, Numbers};

#[derive(Drop)]
pub struct Plan {
    fail_list: Numbers,
    call_count: u64,
    fault_count: u64,
    reserve_left: u64,
}

impl Model for Plan {
    ghost use Rattle.tu_outside.specs.Plan.{PlanState};

    ghost Value = { PlanState };

    ghost view = { λ p. record { fail = p.fail_list; calls = p.call_count; faults = p.fault_count; reserve = p.reserve_left } };
}

impl Plan {
    pub fn new(alloc: Global, fail: &Numbers) -> Result<Plan, Memory>
        ensures { IfOk result (λ plan. plan ≡ fresh fail.now) }
    {
        let fail_list = Numbers::from_slice(alloc, fail.as_slice())?;
        Ok(Plan {
            fail_list,
            call_count: 0,
            fault_count: 0,
            reserve_left: 0,
        })
    }

    // Counts a call whose record has this size. True: it goes on, and takes its size of the reserve.
    pub fn admit(&mut self, size: u64) -> bool
        ensures answer { result ≡ admits self.old size }
        ensures after { self.new ≡ after_call self.old size }
    {
        self.call_count = self.call_count.saturating_add(1);
        let chosen = self.fail_list.as_slice().contains(&self.call_count);
        if chosen || size > self.reserve_left {
            self.fault_count = self.fault_count.saturating_add(1);
            return false;
        }
        self.reserve_left -= size;
        true
    }

    pub fn set_reserve(&mut self, reserve: u64)
        ensures { self.new ≡ record self.old { reserve = reserve } }
    {
        self.reserve_left = reserve;
    }

    pub fn faults(&self) -> u64
        ensures { result ≡ self.now.faults }
    {
        self.fault_count
    }
}

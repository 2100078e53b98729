ghost use Rattle.std.specs.Prelude.{◌≡◌, Some, OnOk, OnErr, IfOk, IsErrOf, IsTrue, ◌↔◌, not};
ghost use Rattle.std.specs.Option.{option_copied};
ghost use Rattle.std.specs.FinMap as map;
ghost use Rattle.tu_outside.specs.Plan.{admits, after_call};
ghost use Rattle.tu_outside.specs.Causes.{HasCauseAt};
ghost use Rattle.tu_outside.specs.Files.{IsFetched, with_file, fetched};
ghost use Rattle.tu_outside.specs.Devices.{fresh_cabinet};

use crate::plan::Plan;
use crate::{Cabinet, CabinetError, Fetched};
use std::alloc::Global;
use std::cmp::Ordering;
use std::collections::VecDeque;
use std::marker::Model;
use tu_base::{Bytes, Memory, Numbers};

/// Files in memory. Chosen calls fail.
pub struct MemoryCabinet {
    // What was kept, the newest first: the first entry of a name has the file's contents.
    log: VecDeque<(Bytes, Bytes)>,
    plan: Plan,
}

// Written, so that a crate that drops this calls it, and does not prove anew how each part is dropped.
impl Drop for MemoryCabinet {
    fn drop(self) {
        let MemoryCabinet { log: _, plan: _ } = self;
    }
}

impl Model for MemoryCabinet {
    ghost use Rattle.std.specs.FinMap as map;
    ghost use Rattle.tu_outside.specs.Devices.{CabinetState, cabinet_code};

    ghost Value = { CabinetState };

    ghost coded = { cabinet_code };

    ghost view = { λ c. record { files = map.from_entries c.log.items; plan = c.plan } };
}

impl MemoryCabinet {
    /// A cabinet with no files. The calls of `fetch` and `keep`, counted from 1, fail at the
    /// numbers in `fail`.
    pub fn make(alloc: Global, fail: &Numbers) -> Result<MemoryCabinet, Memory>
        ensures { IfOk result (λ cabinet. cabinet ≡ fresh_cabinet fail.now) }
    {
        let plan = Plan::new(alloc, fail)?;
        Ok(MemoryCabinet {
            log: VecDeque::new(alloc),
            plan,
        })
    }

    /// The contents of a file, or None where there is no such file. This is no counted call.
    pub fn file(&self, name: &Bytes) -> Option<&Bytes>
        ensures { option_copied result ≡ map.get self.now.files name.now }
    {
        for entry in &self.log {
            if name.as_slice().cmp(entry.0.as_slice()) == Ordering::Equal {
                return Some(&entry.1);
            }
        }
        None
    }

    /// How many calls failed for another cause than memory.
    pub fn fault_count(&self) -> u64
        ensures { result ≡ self.now.plan.faults }
    {
        self.plan.faults()
    }
}

// A record here takes no reserve, so its size is 0.
impl Cabinet for MemoryCabinet {
    ghost files = { λ c. Some c.files };

    ghost faults = { λ c. c.plan.faults };

    fn fetch(&mut self, alloc: Global, name: &Bytes, most: u64) -> Result<Fetched, CabinetError>
        ensures answer { IfOk result (λ answer. answer ≡ fetched (map.get self.old.files name.now) most) }
        ensures failed { IsErrOf result CabinetError.Failed ↔ IsTrue (not (admits self.old.plan 0)) }
        ensures after { self.new ≡ record self.old { plan = after_call self.old.plan 0 } }
    {
        if !self.plan.admit(0) {
            return Err(CabinetError::Failed);
        }
        let Some(contents) = self.file(name) else {
            return Ok(Fetched::Absent);
        };
        if contents.len() as u64 > most {
            return Ok(Fetched::TooLong);
        }
        Ok(Fetched::Whole(Bytes::from_slice(alloc, contents.as_slice())?))
    }

    fn keep(&mut self, alloc: Global, name: &Bytes, contents: &Bytes) -> Result<(), CabinetError>
        ensures kept { OnOk result (self.new.files ≡ map.insert self.old.files name.now contents.now) }
        ensures same { OnErr result (self.new.files ≡ self.old.files) }
        ensures failed { IsErrOf result CabinetError.Failed ↔ IsTrue (not (admits self.old.plan 0)) }
        ensures plan { self.new.plan ≡ after_call self.old.plan 0 }
    {
        if !self.plan.admit(0) {
            return Err(CabinetError::Failed);
        }
        let name = Bytes::from_slice(alloc, name.as_slice())?;
        let contents = Bytes::from_slice(alloc, contents.as_slice())?;
        match self.log.push_front((name, contents)) {
            Ok(()) => Ok(()),
            Err(_) => Err(CabinetError::Memory),
        }
    }
}

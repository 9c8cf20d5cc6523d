ghost use Rattle.std.specs.Prelude.{◌≡◌, ◌+◌, ◌-◌, ◌^◌, ◌↔◌, if◌then◌else◌, min, Contains, IsTrue};
ghost use Rattle.tk_edge.specs.Causes.{raised};

use tk_types::List;

/// Which calls are to fail, by their numbers from 0, and how many did.
#[derive(Drop)]
pub struct Script {
    pub failing: List<u64>,
    pub calls: u64,
    pub faults: u64,
}

impl Script {
    pub fn new(failing: List<u64>) -> Self
        ensures { result ≡ record { failing = failing; calls = 0; faults = 0 } }
    {
        Script {
            failing,
            calls: 0,
            faults: 0,
        }
    }

    /// Counts one more call and tells whether it is to fail. The count stops at its type's end.
    pub fn next(&mut self) -> bool
        ensures scripted { IsTrue result ↔ Contains self.old.failing self.old.calls }
        ensures script { self.new.failing ≡ self.old.failing }
        ensures counted { self.new.calls ≡ min (self.old.calls + 1) (2 ^ 64 - 1) }
        ensures faults { self.new.faults ≡ self.old.faults }
    {
        let fails = self.failing.as_slice().contains(&self.calls);
        self.calls = self.calls.saturating_add(1);
        fails
    }

    /// Counts a fault.
    pub fn fault(&mut self)
        ensures script { self.new.failing ≡ self.old.failing }
        ensures calls { self.new.calls ≡ self.old.calls }
        ensures faults { self.new.faults ≡ raised self.old.faults }
    {
        self.faults = self.faults.saturating_add(1);
    }

    /// Counts one more call and tells whether it is to fail, which counts as a fault. Counts stop at their type's end.
    pub fn fails(&mut self) -> bool
        ensures scripted { IsTrue result ↔ Contains self.old.failing self.old.calls }
        ensures script { self.new.failing ≡ self.old.failing }
        ensures counted { self.new.calls ≡ min (self.old.calls + 1) (2 ^ 64 - 1) }
        ensures faults { self.new.faults ≡ (if result then raised self.old.faults else self.old.faults) }
    {
        let fails = self.next();
        if fails {
            self.fault();
        }
        fails
    }
}

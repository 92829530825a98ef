//! A device in memory whose fences never fail.

ghost use Rattle.std.specs.Prelude.{◌≡◌, ◌≤◌, ◌<◌, ◌-◌, ◌^◌, true, is_ok, refl, length, IfOk};
ghost use Rattle.onll_pmem.specs.Device.{new_device, after_step, line_at, FillsWords, Write, WriteBack, Fence};
ghost use Rattle.onll_workload.specs.Faultless.{faultless_view, few_faults};

use onll_pmem::{FenceFailed, MemPmem, Pmem};
use onll_words::{Line, NoMemory};
use std::alloc::Global;
use std::marker::Model;

/// A device in memory whose fences never fail.
#[derive(Drop)]
pub struct FaultlessMem {
    device: MemPmem,
}

impl Model for FaultlessMem {
    ghost use Rattle.std.specs.Prelude.{◌≡◌, []};
    ghost use Rattle.onll_pmem.specs.Device.{DeviceState};

    ghost Value = { DeviceState };

    ghost view = { λ m. m.device.device };

    ghost invariant = { λ m. m.device.failing ≡ [] };
}

impl FaultlessMem {
    /// A device of so many lines of zeros.
    pub fn new(alloc: Global, lines: u64) -> Result<FaultlessMem, NoMemory>
        requires { lines ≤ 1000000 }
        ensures { IfOk result (λ m. m ≡ new_device lines) }
    {
        Ok(FaultlessMem {
            device: MemPmem::new(alloc, lines, Vec::new(alloc))?,
        })
    }
}

impl Pmem for FaultlessMem {
    ghost means = { faultless_view };

    ghost tells = { true };

    fn lines(&self) -> u64 {
        self.device.lines()
    }

    fn read(&self, line: u64) -> Line {
        self.device.read(line)
    }

    fn held(&self) -> Option<&[Line]> {
        self.device.held()
    }

    fn write(&mut self, line: u64, value: Line)
        requires within { line < length self.old.read }
        requires fills { FillsWords (line_at self.old.read line) value.w }
        ensures { self.new ≡ after_step self.old (Write line value.w) }
    {
        self.device.write(line, value);
    }

    fn write_back(&mut self, line: u64)
        requires { line < length self.old.read }
        ensures { self.new ≡ after_step self.old (WriteBack line) }
    {
        self.device.write_back(line);
    }

    fn fence(&mut self) -> Result<(), FenceFailed>
        requires { self.old.fences < 2 ^ 64 - 1 }
        ensures after { self.new ≡ after_step self.old Fence }
        ensures ok { is_ok result ≡ true }
    {
        self.device.fence()
    }

    fn fences(&self) -> u64 {
        self.device.fences()
    }

    #[tactic(auto, using(crate::proofs::Faults::no_faults))]
    fn faults(&self) -> u64 {
        self.device.faults()
    }

    ghost few_faults = { few_faults };

    ghost told_by_type = { λ device. refl };
}

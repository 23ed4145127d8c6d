//! A law of machine files.
ghost use Rattle.std.specs.Prelude.{◌≡◌, ◌≢◌, ℕ, List, Ok, Err};
ghost use Rattle.bm_base.specs.Machine.{Machine, IsMachine};
ghost use Rattle.machine_file.specs.declared.fault.MachineFault.{MachineFault};
ghost use Rattle.machine_file.specs.declared.fault.MachineFault.TheVariants.{Memory};
ghost use Rattle.machine_file.specs.MachineFile.{machine_of};

/// What a machine file means is a lawful machine, or a fault that is not
/// want of memory.
pub fn machine_files_mean_machines()
    ensures machine { (bytes : List ℕ) (m : Machine) → machine_of bytes ≡ Ok m → IsMachine m }
    ensures fault { (bytes : List ℕ) (e : MachineFault) → machine_of bytes ≡ Err e → e ≢ Memory }
{}

// Files in memory that never fail.
ghost use Rattle.std.specs.Prelude.{◌≡◌, ◌≢◌, ◌+◌, ◌≤◌, Some, None, Err, [], List, ℕ, length, IfOk, OnOk, OnErr};
ghost use Rattle.std.specs.Option.{option_copied};
ghost use Rattle.bm_io.specs.declared.files.FileFault.TheVariants.{Failed, Memory};
ghost use Rattle.bm_io.specs.Causes.{HasCause};
ghost use Rattle.bm_io.specs.Files.{Held, Reads, Keeps, Puts, Asks, put};

use crate::shelf::{Shelf, first_bytes};
use crate::{FileFault, Files};
use std::alloc::{AllocError, Global};

/// Files in memory that never fail, and tell all that they hold and were asked.
///
/// A name that is not held reads as empty.
#[derive(Drop)]
pub struct SureFiles {
    shelf: Shelf,
}

impl SureFiles {
    ghost use Rattle.bm_io.specs.SureFiles.{sure_held, sure_asked};

    /// Holds no file. Takes no memory.
    pub fn new(alloc: Global) -> SureFiles
        ensures held { (name : List ℕ) → sure_held result name ≡ None }
        ensures asked { sure_asked result ≡ [] }
    {
        SureFiles {
            shelf: Shelf::new(alloc),
        }
    }

    /// Puts a file or replaces it. An error changes nothing.
    pub fn hold(&mut self, name: &str, bytes: &[u8]) -> Result<(), AllocError>
        ensures ok { OnOk result ((other : List ℕ) → sure_held self.new other ≡ put (sure_held self.old) name.now bytes.now other) }
        ensures err { OnErr result ((other : List ℕ) → sure_held self.new other ≡ sure_held self.old other) }
        ensures asked { sure_asked self.new ≡ sure_asked self.old }
    {
        self.shelf.hold(name, bytes)
    }

    /// The content of a file; None exactly where no such file is held.
    pub fn held(&self, name: &str) -> Option<&[u8]>
        ensures { option_copied result ≡ sure_held self.now name.now }
    {
        self.shelf.held(name)
    }
}

impl Files for SureFiles {
    ghost use Rattle.bm_io.specs.SureFiles.{sure_held, sure_asked};

    ghost held = { λ s. Some (sure_held s) };

    ghost asked = { λ s. Some (sure_asked s) };

    ghost faults = { λ _. 0 };

    fn read(&mut self, alloc: Global, name: &str, most: usize) -> Result<Vec<u8>, FileFault>
        ensures content { IfOk result (λ bytes. Reads (Some (sure_held self.old)) name.now most bytes.items) }
        ensures short { IfOk result (λ bytes. length bytes.items ≤ most + 1) }
        ensures held { Keeps (Some (sure_held self.old)) (Some (sure_held self.new)) }
        ensures asked { Asks (Some (sure_asked self.old)) (Some (sure_asked self.new)) name.now result }
        ensures cause { HasCause Failed 0 0 result }

        // It never fails.
        ensures sure { result ≢ Err Failed }
    {
        self.shelf.note(name)?;
        match self.shelf.held(name) {
            None => Ok(Vec::new(alloc)),
            Some(bytes) => Ok(first_bytes(alloc, bytes, most)?),
        }
    }

    fn write(&mut self, name: &str, bytes: &[u8]) -> Result<(), FileFault>
        ensures put { OnOk result (Puts (Some (sure_held self.old)) (Some (sure_held self.new)) name.now bytes.now) }
        ensures kept { OnErr result (Keeps (Some (sure_held self.old)) (Some (sure_held self.new))) }
        ensures asked { Asks (Some (sure_asked self.old)) (Some (sure_asked self.new)) name.now result }
        ensures cause { HasCause Failed 0 0 result }

        // It never fails.
        ensures sure { result ≢ Err Failed }
    {
        self.shelf.note(name)?;
        self.shelf.hold(name, bytes)?;
        Ok(())
    }
}

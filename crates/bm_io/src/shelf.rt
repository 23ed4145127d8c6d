// Named files in memory, and the names that were asked for: what the kinds of files in memory share.
ghost use Rattle.std.specs.Prelude.{◌≡◌, ◌+◌, None, [], ◌∷◌, ◌++◌, List, ℕ, take, IfOk, OnOk, OnErr};
ghost use Rattle.std.specs.Option.{option_copied};
ghost use Rattle.bm_io.specs.Files.{Held, put};

use std::alloc::{AllocError, Global};
use std::collections::BTreeMap;

#[derive(Drop)]
pub(crate) struct Shelf {
    alloc: Global,
    files: BTreeMap<String, Vec<u8>>,
    names: Vec<String>,
}

impl Shelf {
    ghost use Rattle.bm_io.specs.Shelf.{shelf_held, shelf_asked};

    pub(crate) fn new(alloc: Global) -> Shelf
        ensures held { (name : List ℕ) → shelf_held result name ≡ None }
        ensures asked { shelf_asked result ≡ [] }
    {
        Shelf {
            alloc,
            files: BTreeMap::new(alloc),
            names: Vec::new(alloc),
        }
    }

    /// Puts a file or replaces it.
    pub(crate) fn hold(&mut self, name: &str, bytes: &[u8]) -> Result<(), AllocError>
        ensures ok { OnOk result ((other : List ℕ) → shelf_held self.new other ≡ put (shelf_held self.old) name.now bytes.now other) }
        ensures err { OnErr result ((other : List ℕ) → shelf_held self.new other ≡ shelf_held self.old other) }
        ensures asked { shelf_asked self.new ≡ shelf_asked self.old }
    {
        let key = String::from_str(self.alloc, name)?;
        let content = Vec::from_slice(self.alloc, bytes)?;
        self.files.insert(key, content)?;
        Ok(())
    }

    /// The file of this name.
    pub(crate) fn held(&self, name: &str) -> Option<&[u8]>
        ensures { option_copied result ≡ shelf_held self.now name.now }
    {
        match self.files.get(name) {
            Some(bytes) => Some(bytes.as_slice()),
            None => None,
        }
    }

    /// Puts a name at the end of the names asked.
    pub(crate) fn note(&mut self, name: &str) -> Result<(), AllocError>
        ensures ok { OnOk result (shelf_asked self.new ≡ shelf_asked self.old ++ name.now ∷ []) }
        ensures err { OnErr result (shelf_asked self.new ≡ shelf_asked self.old) }
        ensures files { self.new.files ≡ self.old.files }
    {
        self.names.push(String::from_str(self.alloc, name)?)?;
        Ok(())
    }
}

/// The first `most + 1` of these bytes, or all where they are fewer.
pub(crate) fn first_bytes(alloc: Global, bytes: &[u8], most: usize) -> Result<Vec<u8>, AllocError>
    ensures { IfOk result (λ first. first.items ≡ take (most + 1) bytes.now) }
{
    if bytes.len() <= most {
        Vec::from_slice(alloc, bytes)
    } else {
        Vec::from_slice(alloc, &bytes[..most + 1])
    }
}

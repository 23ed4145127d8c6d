//! Why a machine file is refused.

ghost use Rattle.std.specs.Prelude.{◌≡◌, ◌⊎◌, ◌++◌, ◌∷◌, [], OnOk, OnErr, IfOk};

use std::alloc::{AllocError, Global};
use std::marker::Model;

/// The bytes of a key. Contracts see the list.
#[derive(Drop)]
pub struct KeyName {
    bytes: Vec<u8>,
}

impl Model for KeyName {
    ghost use Rattle.std.specs.Prelude.{List, ℕ};

    ghost Value = { List ℕ };

    ghost view = { λ n. n.bytes.items };
}

impl KeyName {
    /// No bytes. It takes no memory.
    pub fn new(alloc: Global) -> KeyName
        ensures { result ≡ [] }
    {
        KeyName {
            bytes: Vec::new(alloc),
        }
    }

    /// Puts a byte at the end; want of memory changes nothing.
    pub fn push(&mut self, byte: u8) -> Result<(), AllocError>
        ensures ok { OnOk result (self.new ≡ self.old ++ byte ∷ []) }
        ensures err { OnErr result (self.new ≡ self.old) }
    {
        self.bytes.push(byte)?;
        Ok(())
    }

    /// The bytes in order.
    pub fn items(&self) -> &[u8]
        ensures { result.now ≡ self.now }
    {
        &self.bytes
    }

    /// The bytes in order, as the vector that held them. It takes no memory.
    pub fn into_bytes(self) -> Vec<u8>
        ensures { result.items ≡ self }
    {
        self.bytes
    }

    /// The bytes of two texts, one behind the other.
    pub(crate) fn joined(alloc: Global, front: &str, back: &str) -> Result<KeyName, AllocError>
        ensures { IfOk result (λ name. name ≡ front.now ++ back.now) }
    {
        let mut bytes = Vec::from_slice(alloc, front.as_bytes())?;
        bytes.extend_from_slice(back.as_bytes())?;
        Ok(KeyName { bytes })
    }
}

/// Why a machine file is refused: the first fault in the order in which the keys are looked at. The
/// name of a key in `times` has `times.` before it.
#[derive(Drop)]
pub enum MachineFault {
    /// The bytes are not UTF-8, or the text is not TOML.
    NotToml,
    /// A key that is missing, or that a machine file does not have.
    Key {
        /// The key.
        name: KeyName,
    },
    /// A key with a value that is no integer, no table, or no array of exactly two integers.
    Kind {
        /// The key.
        name: KeyName,
    },
    /// A number out of its range.
    Range {
        /// The key.
        name: KeyName,
        /// The number.
        value: i64,
    },
    /// No memory.
    Memory,
}

impl From<AllocError> for MachineFault {
    ghost use Rattle.std.specs.Prelude.{◌≡◌};
    ghost use Rattle.machine_file.specs.declared.fault.MachineFault.TheVariants.{Memory};

    ghost from_gives = { λ _ e. e ≡ Memory };

    fn from(_: AllocError) -> Self {
        MachineFault::Memory
    }
}

/// A fault of a key, by its prefix and the key itself.
pub(crate) fn key_fault(alloc: Global, prefix: &str, key: &str) -> MachineFault
    ensures { (result ≡ MachineFault.Key (prefix.now ++ key.now)) ⊎ (result ≡ MachineFault.Memory) }
{
    match KeyName::joined(alloc, prefix, key) {
        Ok(name) => MachineFault::Key { name },
        Err(_) => MachineFault::Memory,
    }
}

/// A fault of the kind of what stands at a key.
pub(crate) fn kind_fault(alloc: Global, prefix: &str, key: &str) -> MachineFault
    ensures { (result ≡ MachineFault.Kind (prefix.now ++ key.now)) ⊎ (result ≡ MachineFault.Memory) }
{
    match KeyName::joined(alloc, prefix, key) {
        Ok(name) => MachineFault::Kind { name },
        Err(_) => MachineFault::Memory,
    }
}

/// A fault of a number at a key.
pub(crate) fn range_fault(alloc: Global, prefix: &str, key: &str, value: i64) -> MachineFault
    ensures { (result ≡ MachineFault.Range (prefix.now ++ key.now) value) ⊎ (result ≡ MachineFault.Memory) }
{
    match KeyName::joined(alloc, prefix, key) {
        Ok(name) => MachineFault::Range { name, value },
        Err(_) => MachineFault::Memory,
    }
}

//! The machine of a machine file.

ghost use Rattle.std.specs.Prelude.{◌≡◌, ◌⊎◌, ◌++◌, ◌≤◌, ℕ, codes, map, length, Some, Ok, Err, OnOk, IfOk, IfErr, option_map};
ghost use Rattle.std.specs.List.{AllByRecursion};
ghost use Rattle.bm_base.specs.Machine.{IsTime};
ghost use Rattle.toml.specs.Data.{get_member};
ghost use Rattle.toml.specs.View.{view, table_view};
ghost use Rattle.machine_file.specs.Keys as keys;
ghost use Rattle.machine_file.specs.MachineFile as spec;

use crate::fault::{MachineFault, key_fault, kind_fault, range_fault};
use bm_base::{Interval, MOST_DELAY, MOST_PROCESSORS, MOST_TICKS, Spec};
use std::alloc::Global;
use toml::{Table, Value};

const TOP_KEYS: [&str; 3] = ["processors", "barrier", "times"];

const CLASS_KEYS: [&str; 9] = [
    "const", "load", "store", "loadel", "storeel", "alu", "mul", "div", "print",
];

/// What stands at a key.
fn at_key<'a>(
    alloc: Global,
    table: &'a Table,
    prefix: &str,
    key: &str,
) -> Result<&'a Value, MachineFault>
    ensures { spec.Tells (λ v. view v.now) (spec.at_key (prefix.now ++ key.now) (get_member key.now (table_view table.now))) result }
{
    match table.get(key) {
        Some(value) => Ok(value),
        None => Err(key_fault(alloc, prefix, key)),
    }
}

/// The number, where it is from `low` to `high`.
fn in_range(
    alloc: Global,
    prefix: &str,
    key: &str,
    low: u16,
    high: u16,
    value: i64,
) -> Result<u16, MachineFault>
    ensures told { spec.Tells (λ n. n) (spec.in_range (prefix.now ++ key.now) low high value) result }
    ensures range { IfOk result (λ n. (low ≤ n) × (n ≤ high)) }
{
    if (low as i64) <= value && value <= high as i64 {
        Ok(value as u16)
    } else {
        Err(range_fault(alloc, prefix, key, value))
    }
}

/// The two integers of an array of exactly two.
fn pair(value: &Value) -> Option<(i64, i64)>
    ensures { result ≡ spec.pair_of (view value.now) }
{
    let Value::Array(items) = value else {
        return None;
    };
    match items.as_slice() {
        [least, most] => Some((least.as_integer()?, most.as_integer()?)),
        _ => None,
    }
}

/// The interval at a key of `times`.
fn interval(alloc: Global, times: &Table, key: &str) -> Result<Interval, MachineFault>
    ensures told { spec.Tells (λ t. t) (spec.interval_of (spec.in_times key.now) (get_member key.now (table_view times.now))) result }
    ensures time { IfOk result (λ t. IsTime t) }
{
    let value = at_key(alloc, times, "times.", key)?;
    let Some((least, most)) = pair(value) else {
        return Err(kind_fault(alloc, "times.", key));
    };
    let least = in_range(alloc, "times.", key, 1, MOST_TICKS, least)?;
    let most = in_range(alloc, "times.", key, least, MOST_TICKS, most)?;
    Ok(Interval { least, most })
}

/// Reads the intervals at some keys of `times`, in their order.
fn read_intervals(
    alloc: Global,
    times: &Table,
    keys: &[&str],
    intervals: &mut [Interval],
) -> Result<(), MachineFault>
    requires count { length intervals.old ≡ length keys.now }
    requires time { AllByRecursion IsTime intervals.old }
    ensures ok { OnOk result (spec.intervals_of (map (λ k. k.now) keys.now) (table_view times.now) ≡ Ok intervals.new) }
    ensures err { IfErr result (λ e. (spec.intervals_of (map (λ k. k.now) keys.now) (table_view times.now) ≡ Err e)
        ⊎ (e ≡ MachineFault.Memory)) }
    ensures time { AllByRecursion IsTime intervals.new }
{
    for (place, key) in keys.iter().enumerate() {
        intervals[place] = interval(alloc, times, *key)?;
    }
    Ok(())
}

/// The intervals of all classes, in their order.
#[tactic(auto, unfolding(crate::specs::Keys::class_keys))]
fn intervals_of_classes(alloc: Global, times: &Table) -> Result<[Interval; 9], MachineFault>
    ensures told { spec.Tells (λ ts. ts) (spec.intervals_of keys.class_keys (table_view times.now)) result }
    ensures time { IfOk result (λ ts. AllByRecursion IsTime ts) }
{
    let mut intervals = [Interval { least: 1, most: 1 }; 9];
    read_intervals(alloc, times, &CLASS_KEYS, &mut intervals)?;
    Ok(intervals)
}

fn is_among(known: &[&str], key: &str) -> bool
    ensures { result ≡ keys.is_among (map (λ k. k.now) known.now) key.now }
{
    known.contains(&key)
}

/// The first key of a table, in byte order, that is none of these.
fn first_unknown<'a>(table: &'a Table, known: &[&str]) -> Option<&'a str>
    ensures { option_map (λ k. k.now) result ≡ keys.first_unknown (map (λ k. k.now) known.now) (keys.keys_of (table_view table.now)) }
{
    for key in table.keys() {
        if !is_among(known, key.as_str()) {
            return Some(key.as_str());
        }
    }
    None
}

/// Refuses a table with a key that is none of these.
fn has_only(alloc: Global, table: &Table, known: &[&str], prefix: &str) -> Result<(), MachineFault>
    ensures { spec.Tells (λ _. tt) (spec.without (λ key. prefix.now
        ++ key) (keys.first_unknown (map (λ k. k.now) known.now) (keys.keys_of (table_view table.now)))) result }
{
    match first_unknown(table, known) {
        None => Ok(()),
        Some(key) => Err(key_fault(alloc, prefix, key)),
    }
}

/// Refuses a key that a machine file does not have.
fn no_unknown(alloc: Global, document: &Table, times: &Table) -> Result<(), MachineFault>
    ensures { spec.Tells (λ _. tt) (spec.no_unknown (table_view document.now) (table_view times.now)) result }
{
    has_only(alloc, document, &TOP_KEYS, "")?;
    has_only(alloc, times, &CLASS_KEYS, "times.")
}

/// How many processors.
fn processors(alloc: Global, document: &Table) -> Result<u8, MachineFault>
    ensures told { spec.Tells (λ n. n) (spec.processors_of (table_view document.now)) result }
    ensures range { IfOk result (λ n. (1 ≤ n) × (n ≤ MOST_PROCESSORS)) }
{
    let value = at_key(alloc, document, "", "processors")?;
    let Some(count) = value.as_integer() else {
        return Err(kind_fault(alloc, "", "processors"));
    };
    let processors = in_range(
        alloc,
        "",
        "processors",
        1,
        u16::from(MOST_PROCESSORS),
        count,
    )?;
    Ok(processors as u8)
}

/// How many ticks lie between the firing of a mask and the resuming of its members, from what
/// stands at the key.
fn ticks(alloc: Global, value: &Value) -> Result<u8, MachineFault>
    ensures told { spec.Tells (λ n. n) (spec.delay_at (Some (view value.now))) result }
    ensures range { IfOk result (λ n. n ≤ MOST_DELAY) }
{
    let Some(ticks) = value.as_integer() else {
        return Err(kind_fault(alloc, "", "barrier"));
    };
    let ticks = in_range(alloc, "", "barrier", 0, u16::from(MOST_DELAY), ticks)?;
    Ok(ticks as u8)
}

/// How many ticks lie between the firing of a mask and the resuming of its members; none where the
/// key is missing.
fn barrier(alloc: Global, document: &Table) -> Result<u8, MachineFault>
    ensures told { spec.Tells (λ n. n) (spec.delay_of (table_view document.now)) result }
    ensures range { IfOk result (λ n. n ≤ MOST_DELAY) }
{
    match document.get("barrier") {
        None => Ok(0),
        Some(value) => ticks(alloc, value),
    }
}

/// The table of times.
fn times_table(alloc: Global, document: &Table) -> Result<&Table, MachineFault>
    ensures { spec.Tells (λ t. table_view t.now) (spec.times_of (table_view document.now)) result }
{
    let value = at_key(alloc, document, "", "times")?;
    match value.as_table() {
        Some(times) => Ok(times),
        None => Err(kind_fault(alloc, "", "times")),
    }
}

/// The machine of a document.
fn machine(alloc: Global, document: &Table) -> Result<Spec, MachineFault>
    ensures { spec.Tells (λ m. m) (spec.machine_of_document (table_view document.now)) result }
{
    let processors = processors(alloc, document)?;
    let barrier = barrier(alloc, document)?;
    let times = times_table(alloc, document)?;
    let intervals = intervals_of_classes(alloc, times)?;
    no_unknown(alloc, document, times)?;
    match Spec::new(processors, barrier, intervals) {
        Some(spec) => Ok(spec),
        None => unreachable!(),
    }
}

/// The machine of a machine file's bytes.
///
/// # Errors
///
/// `NotToml` where the bytes are no TOML text; else the first fault of the keys in the order
/// `processors`, `barrier`, `times`, the times in the order of the classes; else a key that a machine file does
/// not have, the first in byte order at the top, then in `times`. Want of memory may come for any
/// bytes.
pub fn read_machine(alloc: Global, bytes: &[u8]) -> Result<Spec, MachineFault>
    ensures { (result ≡ spec.machine_of bytes.now) ⊎ (result ≡ Err MachineFault.Memory) }
{
    match toml::table_from_slice(alloc, bytes) {
        Ok(document) => machine(alloc, &document),
        Err(error) if error.is_memory() => Err(MachineFault::Memory),
        Err(_) => Err(MachineFault::NotToml),
    }
}

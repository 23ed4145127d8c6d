// What a block with its streams and masks keeps.
ghost use Rattle.std.specs.Prelude.{◌≡◌, ◌≤◌, ◌<◌, ◌^◌, ◌/◌, ◌==◌, not, slice_get, length, Ok, Err, OnOk, IfErr, List, Bool};
ghost use Rattle.stream_image.specs.Check as spec;

use crate::fault::ImageFault;
use crate::given::Stream;
use bm_base::{Kind, MOST_MASKS, MOST_PROCESSORS, MOST_TUPLES, Mask, Names};
use line_model::StreamItem;
use tuple_ir::{Next, Tuple, gives_value};

const NUMBERS: usize = 256;

/// The first stream whose processor the machine lacks.
fn foreign(block: u32, processors: u8, streams: &[Stream]) -> Option<ImageFault>
    ensures { result ≡ spec.foreign block processors streams.now }
{
    for stream in streams {
        if stream.processor >= processors {
            return Some(ImageFault::Processor {
                block,
                processor: stream.processor,
            });
        }
    }
    None
}

/// Notes the numbers of these items, up to the first that was noted before.
fn see(seen: &mut [bool; NUMBERS], items: &[StreamItem]) -> Result<(), u8>
    ensures ok { OnOk result (spec.seeing seen.old items.now ≡ Ok seen.new) }
    ensures err { IfErr result (λ t. spec.seeing seen.old items.now ≡ Err t) }
{
    for item in items {
        if let StreamItem::Do { tuple } = *item {
            if seen[tuple as usize] {
                return Err(tuple);
            }
            seen[tuple as usize] = true;
        }
    }
    Ok(())
}

/// Notes the numbers of all streams, up to the first that stands twice.
fn see_all(seen: &mut [bool; NUMBERS], streams: &[Stream]) -> Result<(), u8>
    ensures ok { OnOk result (spec.seeing_all seen.old streams.now ≡ Ok seen.new) }
    ensures err { IfErr result (λ t. spec.seeing_all seen.old streams.now ≡ Err t) }
{
    for stream in streams {
        see(seen, stream.items.items())?;
    }
    Ok(())
}

/// The least number that is seen and no tuple, or a tuple and not seen.
fn missing(count: usize, seen: &[bool]) -> Option<u8>
    requires { length seen.now ≤ 256 }
    ensures { result ≡ spec.missing_from 0 count seen.now }
{
    for (number, here) in seen.iter().enumerate() {
        if *here != (number < count) {
            return Some(number as u8);
        }
    }
    None
}

fn is_var(names: &Names, x: u16) -> bool
    ensures { result ≡ spec.is_var (slice_get names.now x) }
{
    (x as usize) < names.len() && matches!(names.kind(x), Kind::Var { .. })
}

fn is_array(names: &Names, x: u16) -> bool
    ensures { result ≡ spec.is_array (slice_get names.now x) }
{
    (x as usize) < names.len() && matches!(names.kind(x), Kind::Array { .. })
}

/// Whether cell `c` is that of a tuple before number `i` that gives a value.
fn is_value(tuples: &[Tuple], i: usize, c: u8) -> bool
    ensures { result ≡ spec.is_value tuples.now i c }
{
    if (c as usize) < i {
        match tuples.get(c as usize) {
            Some(tuple) => gives_value(*tuple),
            None => false,
        }
    } else {
        false
    }
}

/// The first place of a tuple that is not of the right kind.
fn bad_place(names: &Names, tuples: &[Tuple], i: usize, tuple: Tuple) -> Option<u8>
    ensures { result ≡ spec.first_false 0 (spec.asks names.now tuples.now i tuple) }
{
    match tuple {
        Tuple::Const { .. } => None,
        Tuple::Load { name } => if is_var(names, name) { None } else { Some(0) },
        Tuple::Store { name, value } => if !is_var(names, name) {
            Some(0)
        } else if !is_value(tuples, i, value) {
            Some(1)
        } else {
            None
        },
        Tuple::LoadEl { name, index } => if !is_array(names, name) {
            Some(0)
        } else if !is_value(tuples, i, index) {
            Some(1)
        } else {
            None
        },
        Tuple::StoreEl { name, index, value } => if !is_array(names, name) {
            Some(0)
        } else if !is_value(tuples, i, index) {
            Some(1)
        } else if !is_value(tuples, i, value) {
            Some(2)
        } else {
            None
        },
        Tuple::One { a, .. } => if is_value(tuples, i, a) {
            None
        } else {
            Some(0)
        },
        Tuple::Two { a, b, .. } => if !is_value(tuples, i, a) {
            Some(0)
        } else if !is_value(tuples, i, b) {
            Some(1)
        } else {
            None
        },
        Tuple::Print { value } => if is_value(tuples, i, value) {
            None
        } else {
            Some(0)
        },
    }
}

/// The first operand that is not of the right kind.
fn operand(block: u32, names: &Names, tuples: &[Tuple]) -> Option<ImageFault>
    requires { length tuples.now ≤ MOST_TUPLES }
    ensures { result ≡ spec.operand_from block names.now tuples.now 0 tuples.now }
{
    for (i, tuple) in tuples.iter().enumerate() {
        if let Some(place) = bad_place(names, tuples, i, *tuple) {
            return Some(ImageFault::Operand {
                block,
                tuple: i as u8,
                place,
            });
        }
    }
    None
}

fn cell(block: u32, tuples: &[Tuple], next: Next) -> Option<ImageFault>
    ensures { result ≡ spec.cell_fault block tuples.now next }
{
    match next {
        Next::If { cell, .. } => if is_value(tuples, tuples.len(), cell) {
            None
        } else {
            Some(ImageFault::Cell { block, cell })
        },
        _ => None,
    }
}

fn waits_in(items: &[StreamItem]) -> u64
    ensures { result ≡ spec.waits_in items.now }
{
    let mut count = 0;
    for item in items {
        if let StreamItem::Wait = *item {
            count += 1;
        }
    }
    count
}

/// The waits of a processor's stream.
fn waits_of(processor: u8, streams: &[Stream]) -> u64
    ensures { result ≡ spec.waits_of processor streams.now }
{
    for stream in streams {
        if stream.processor == processor {
            return waits_in(stream.items.items());
        }
    }
    0
}

/// The masks that have the processor.
fn masks_of(processor: u8, masks: &[Mask]) -> u8
    requires { length masks.now ≤ MOST_MASKS }
    ensures { result ≡ spec.masks_of processor masks.now }
{
    let mut count = 0;
    for mask in masks {
        if mask.has(processor) {
            count += 1;
        }
    }
    count
}

/// The first processor whose waits are not as many as its masks.
fn waits(block: u32, processors: u8, streams: &[Stream], masks: &[Mask]) -> Option<ImageFault>
    requires { length masks.now ≤ MOST_MASKS }
    ensures { result ≡ spec.waits_from block 0 processors streams.now masks.now }
{
    for processor in 0..processors {
        let waits = waits_of(processor, streams);
        let masks = masks_of(processor, masks);
        if waits != u64::from(masks) {
            return Some(ImageFault::Waits {
                block,
                processor,
                waits,
                masks,
            });
        }
    }
    None
}

/// The first mask without a processor.
fn empty(block: u32, masks: &[Mask]) -> Option<ImageFault>
    requires { length masks.now ≤ MOST_MASKS }
    ensures { result ≡ spec.empty_from block 0 masks.now }
{
    for (j, mask) in masks.iter().enumerate() {
        if mask.is_empty() {
            return Some(ImageFault::MaskEmpty {
                block,
                mask: j as u8,
            });
        }
    }
    None
}

/// Whether the mask has a processor that the machine lacks.
fn has_foreign(processors: u8, mask: Mask) -> bool
    ensures { result ≡ not (mask / 2 ^ processors == 0) }
{
    let number = mask.number();
    processors < MOST_PROCESSORS && number >> processors != 0
}

/// The first mask with a processor that the machine lacks.
fn foreign_bit(block: u32, processors: u8, masks: &[Mask]) -> Option<ImageFault>
    requires { length masks.now ≤ MOST_MASKS }
    ensures { result ≡ spec.bit_from block processors 0 masks.now }
{
    for (j, mask) in masks.iter().enumerate() {
        if has_foreign(processors, *mask) {
            return Some(ImageFault::MaskBit {
                block,
                mask: j as u8,
            });
        }
    }
    None
}

/// The first thing that the block of this number does not keep, in the order of `ImageFault`; None
/// exactly where it keeps all.
pub(crate) fn first_fault(
    block: u32,
    names: &Names,
    processors: u8,
    tuples: &[Tuple],
    next: Next,
    streams: &[Stream],
    masks: &[Mask],
) -> Option<ImageFault>
    requires tuples { length tuples.now ≤ MOST_TUPLES }
    requires masks { length masks.now ≤ MOST_MASKS }
    ensures { result ≡ spec.first_fault block names.now processors tuples.now next streams.now masks.now }
{
    if let Some(fault) = foreign(block, processors, streams) {
        return Some(fault);
    }
    if let Some(fault) = once(block, tuples.len(), streams) {
        return Some(fault);
    }
    if let Some(fault) = operand(block, names, tuples) {
        return Some(fault);
    }
    if let Some(fault) = cell(block, tuples, next) {
        return Some(fault);
    }
    if let Some(fault) = waits(block, processors, streams, masks) {
        return Some(fault);
    }
    if let Some(fault) = empty(block, masks) {
        return Some(fault);
    }
    foreign_bit(block, processors, masks)
}

/// The first number that stands twice in the streams, or the least that is in one of the tuples and
/// the streams and not in the other.
fn once(block: u32, count: usize, streams: &[Stream]) -> Option<ImageFault>
    ensures { result ≡ spec.once_of block count (spec.seeing_all spec.none_seen streams.now) }
{
    let mut seen = [false; NUMBERS];
    match see_all(&mut seen, streams) {
        Err(tuple) => Some(ImageFault::TupleTwice { block, tuple }),
        Ok(()) => match missing(count, &seen) {
            Some(tuple) => Some(ImageFault::TupleMissing { block, tuple }),
            None => None,
        },
    }
}

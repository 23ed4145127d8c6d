// The line of streams and masks.
ghost use Rattle.std.specs.Prelude.{◌≡◌, ◌++◌, ◌≤◌, ◌<◌, [], ℕ, IfOk, OnOk, drop, get_or, length};
ghost use Rattle.bm_base.specs.Mask.{has_bit};
ghost use Rattle.stream_image.specs.Line as spec;
ghost use Rattle.stream_image.specs.Rest.{rest_of};

use crate::given::Stream;
use bm_base::{MOST_PROCESSORS, Mask};
use line_model::{Item, Items, Line, StreamItem};
use std::alloc::{AllocError, Global};

/// How many items of its stream each processor has behind it.
pub(crate) type Places = [usize; MOST_PROCESSORS as usize];

/// The items of a processor: none where no stream is its own.
pub(crate) fn items_of(streams: &[Stream], p: u8) -> &[StreamItem]
    ensures { result.now ≡ spec.items_of streams.now p }
{
    for stream in streams {
        if stream.processor == p {
            return stream.items.items();
        }
    }
    &[]
}

/// Puts the tuples that stand from a place on before the next wait at the line's end; the place
/// behind that wait.
fn put_runs(items: &mut Items, p: u8, own: &[StreamItem], place: usize) -> Result<usize, AllocError>
    ensures runs { OnOk result (items.new ≡ items.old ++ spec.runs_ahead p (drop place own.now)) }
    ensures place { IfOk result (λ next. drop next own.now ≡ spec.behind_wait (drop place own.now)) }
{
    for k in place..own.len() {
        match own[k] {
            StreamItem::Do { tuple } => items.push(Item::Run {
                processor: p,
                tuple,
            })?,
            StreamItem::Wait => return Ok(k + 1),
        }
    }
    Ok(own.len())
}

/// Puts the tuples that the members of a mask have before their next waits at the line's end, and
/// passes these waits.
fn put_members(
    items: &mut Items,
    n: u8,
    streams: &[Stream],
    places: &mut Places,
    mask: Mask,
) -> Result<(), AllocError>
    requires { n ≤ MOST_PROCESSORS }
    ensures runs { OnOk result (items.new ≡ items.old ++ spec.ahead n (has_bit mask) (rest_of streams.now places.old)) }
    ensures left { OnOk result ((p : ℕ) → p < n → rest_of streams.now places.new p ≡ spec.passed mask (rest_of streams.now places.old) p) }
{
    for p in 0..n {
        if mask.has(p) {
            places[p as usize] = put_runs(items, p, items_of(streams, p), places[p as usize])?;
        }
    }
    Ok(())
}

/// Puts the tuples that are left at the line's end.
fn put_rest(items: &mut Items, n: u8, streams: &[Stream], places: &Places) -> Result<(), AllocError>
    requires { n ≤ MOST_PROCESSORS }
    ensures { OnOk result (items.new ≡ items.old ++ spec.line_of n (rest_of streams.now places.now) []) }
{
    for p in 0..n {
        put_runs(items, p, items_of(streams, p), places[p as usize])?;
    }
    Ok(())
}

/// Nobody has an item behind it.
pub(crate) fn no_places() -> Places
    ensures { (p : ℕ) → get_or result p 0 ≡ 0 }
{
    [0; MOST_PROCESSORS as usize]
}

/// The line of the streams of n processors and of masks.
pub(crate) fn line_of(
    alloc: Global,
    n: u8,
    streams: &[Stream],
    masks: &[Mask],
) -> Result<Line, AllocError>
    requires { n ≤ MOST_PROCESSORS }
    ensures { IfOk result (λ line. line.items ≡ spec.line_of n (spec.items_of streams.now) masks.now) }
{
    let mut items = Items::new(alloc);
    let mut places = no_places();
    for mask in masks {
        put_members(&mut items, n, streams, &mut places, *mask)?;
        items.push(Item::Bar { mask: *mask })?;
    }
    put_rest(&mut items, n, streams, &places)?;
    Ok(Line { items })
}

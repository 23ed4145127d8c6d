// A line of streams and masks in which each tuple stands behind its producers.
ghost use Rattle.std.specs.Prelude.{◌≡◌, ◌<◌, ◌≤◌, ◌++◌, ◌∷◌, [], ℕ, true, false, Contains, IfOk, IfSome, drop, get_or, length};
ghost use Rattle.bm_base.specs.Mask.{has_bit};
ghost use Rattle.dependence.specs.Found.{AreDepsOf};
ghost use Rattle.line_model.specs.Streams as lines;
ghost use Rattle.line_model.specs.Streams.{own};
ghost use Rattle.line_model.specs.declared.line.StreamItem.TheVariants.{Wait};
ghost use Rattle.time_interval.specs.Bounds.{pace_on};
ghost use Rattle.stream_image.specs.declared.order.Wrong.TheVariants.{Loose};
ghost use Rattle.stream_image.specs.Order.{NoneWrong};
ghost use Rattle.stream_image.specs.Rest.{rest_of};
ghost use Rattle.stream_image.specs.Sorted.{AreGiven, AreLined, ComeFirst, IsReady, IsSetOf, IsSorted, all_in, line_on};
ghost use Rattle.stream_image.specs.Sorted.{HasFired, HasGone, HasRun};

use crate::given::Stream;
use crate::line::{Places, items_of, no_places};
use bm_base::{MOST_PROCESSORS, MOST_TUPLES, Mask, Spec};
use dependence::Deps;
use line_model::StreamItem;
use std::alloc::{AllocError, Global};
use time_interval::Timeline;
use tuple_ir::Block;

/// A line that grows by items of streams and masks, with what is known behind it: the set of its
/// tuples, how many items of its stream each processor has behind it, how many masks, and the stream
/// that went on last.
#[derive(Drop)]
pub(crate) struct Sorting {
    walked: Timeline,
    passed: Mask,
    places: Places,
    queue: usize,
    turn: usize,
}

/// What can come next: a tuple of a stream, with the place behind it.
#[derive(Clone, Copy)]
pub(crate) struct Ready {
    stream: usize,
    processor: u8,
    tuple: u8,
    next: usize,
}

/// Whether all of these tuples are in the set.
fn all_passed(passed: Mask, numbers: &[u8]) -> bool
    ensures { result ≡ all_in passed numbers.now }
{
    for number in numbers {
        if !passed.has(*number) {
            return false;
        }
    }
    true
}

/// Whether a number is one of the block's tuples that have not passed, and its producers have.
fn may_run(passed: Mask, deps: &Deps, tuple: u8) -> bool
    ensures below { result ≡ true → tuple < length deps.now.producers }
    ensures few { result ≡ true → tuple < MOST_TUPLES }
    ensures new { result ≡ true → has_bit passed tuple ≡ false }
{
    (tuple as usize) < deps.len() && !passed.has(tuple) && all_passed(passed, deps.producers(tuple))
}

/// The place behind the wait that the items have at a place; none where no wait stands there.
fn behind_wait(own: &[StreamItem], place: usize) -> Option<usize>
    ensures { IfSome result (λ next. drop place own.now ≡ Wait ∷ drop next own.now) }
{
    if place < own.len() && matches!(own[place], StreamItem::Wait) {
        Some(place + 1)
    } else {
        None
    }
}

/// Passes the waits of a mask's members, where each of them waits next.
fn pass_waits(places: &mut Places, n: u8, streams: &[Stream], mask: Mask) -> bool
    requires { n ≤ MOST_PROCESSORS }
    ensures members { result ≡ true → (p : ℕ) → p < n
        → rest_of streams.now places.old p ≡ own (has_bit mask p) Wait (rest_of streams.now places.new p) }
    ensures others { (p : ℕ) → n ≤ p → get_or places.new p 0 ≡ get_or places.old p 0 }
{
    for p in 0..n {
        if mask.has(p) {
            match behind_wait(items_of(streams, p), places[p as usize]) {
                Some(next) => places[p as usize] = next,
                None => return false,
            }
        }
    }
    true
}

impl Sorting {
    /// No items yet.
    fn empty(alloc: Global, block: &Block, spec: &Spec) -> Result<Sorting, AllocError>
        requires few { length block.now.tuples ≤ MOST_TUPLES }
        ensures pace { IfOk result (λ s. s.walked.pace ≡ pace_on spec.now block.now.tuples) }
        ensures line { IfOk result (λ s. s.walked.line ≡ []) }
        ensures passed { IfOk result (λ s. s.passed ≡ 0) }
        ensures places { IfOk result (λ s. (p : ℕ) → get_or s.places p 0 ≡ 0) }
        ensures room { IfOk result (λ s. length s.places ≡ MOST_PROCESSORS) }
        ensures queue { IfOk result (λ s. s.queue ≡ 0) }
        ensures turn { IfOk result (λ s. s.turn ≡ 0) }
    {
        let walked = Timeline::empty(alloc, block, spec)?;
        Ok(Sorting {
            walked,
            passed: Mask::empty(),
            places: no_places(),
            queue: 0,
            turn: 0,
        })
    }

    /// The next tuple of a stream, where it can come next.
    fn ready(&self, deps: &Deps, streams: &[Stream], k: usize) -> Option<Ready>
        requires given { AreGiven self.now.walked.pace.processors streams.now [] }
        requires inside { k < length streams.now }
        ensures { IfSome result (IsReady (length deps.now.producers) streams.now self.now) }
    {
        let stream = &streams[k];
        let own = stream.items.items();
        let place = self.places[stream.processor as usize];
        if place < own.len() {
            if let StreamItem::Do { tuple } = own[place] {
                if may_run(self.passed, deps, tuple) {
                    return Some(Ready {
                        stream: k,
                        processor: stream.processor,
                        tuple,
                        next: place + 1,
                    });
                }
            }
        }
        None
    }

    /// The first tuple of the streams from one to another that can come next.
    fn find(&self, deps: &Deps, streams: &[Stream], from: usize, to: usize) -> Option<Ready>
        requires given { AreGiven self.now.walked.pace.processors streams.now [] }
        requires inside { to ≤ length streams.now }
        ensures { IfSome result (IsReady (length deps.now.producers) streams.now self.now) }
    {
        for k in from..to {
            if let Some(ready) = self.ready(deps, streams, k) {
                return Some(ready);
            }
        }
        None
    }

    /// Whether all of these tuples are ordered before what processor p runs next.
    fn come_first(&self, numbers: &[u8], p: u8) -> bool
        requires passed { IsSetOf self.now.passed self.now.walked.line }
        requires processor { p < self.now.walked.pace.processors }
        ensures { result ≡ true → ComeFirst self.now.walked.pace self.now.walked.line numbers.now p }
    {
        for a in numbers {
            if !self.passed.has(*a) {
                return false;
            }
            if !self.walked.ordered_next(*a, p) {
                return false;
            }
        }
        true
    }

    /// Goes on by a tuple, if its producers are ordered before it.
    fn run(&mut self, deps: &Deps, ready: Ready) -> Result<bool, AllocError>
        requires few { self.old.walked.pace.processors ≤ MOST_PROCESSORS }
        requires passed { IsSetOf self.old.passed self.old.walked.line }
        requires processor { ready.processor < self.old.walked.pace.processors }
        requires tuple { ready.tuple < length deps.now.producers }
        requires small { ready.tuple < MOST_TUPLES }
        requires long { length self.old.walked.pace.times ≡ length deps.now.producers }
        requires new { has_bit self.old.passed ready.tuple ≡ false }
        ensures { IfOk result (λ went. went ≡ true → HasRun deps.now.producers self.old self.new ready) }
    {
        if !self.come_first(deps.producers(ready.tuple), ready.processor) {
            return Ok(false);
        }
        self.walked.push_run(ready.processor, ready.tuple)?;
        self.passed.insert(ready.tuple);
        self.places[ready.processor as usize] = ready.next;
        self.turn = ready.stream;
        Ok(true)
    }

    /// Goes on by the next mask, if all its members wait.
    fn bar(&mut self, n: u8, streams: &[Stream], masks: &[Mask]) -> Result<bool, AllocError>
        requires processors { n ≡ self.old.walked.pace.processors }
        requires given { AreGiven n streams.now masks.now }
        requires queue { lines.masks self.old.walked.line ++ drop self.old.queue masks.now ≡ masks.now }
        ensures { IfOk result (λ went. went ≡ true → HasFired n streams.now masks.now self.old self.new) }
    {
        if self.queue >= masks.len() {
            return Ok(false);
        }
        let mask = masks[self.queue];
        if !pass_waits(&mut self.places, n, streams, mask) {
            return Ok(false);
        }
        self.walked.push_bar(mask)?;
        self.queue += 1;
        Ok(true)
    }

    /// What comes next: a tuple of the stream that went on last, or else of one behind it, or else of
    /// one in front of it.
    fn next(&self, deps: &Deps, streams: &[Stream]) -> Option<Ready>
        requires given { AreGiven self.now.walked.pace.processors streams.now [] }
        requires turn { self.now.turn ≤ length streams.now }
        ensures { IfSome result (IsReady (length deps.now.producers) streams.now self.now) }
    {
        match self.find(deps, streams, self.turn, streams.len()) {
            Some(ready) => Some(ready),
            None => self.find(deps, streams, 0, self.turn),
        }
    }

    /// Goes on by one item: by a tuple whose producers have passed, or else by the next mask.
    fn step(
        &mut self,
        n: u8,
        deps: &Deps,
        streams: &[Stream],
        masks: &[Mask],
    ) -> Result<bool, AllocError>
        requires processors { n ≡ self.old.walked.pace.processors }
        requires sorted { IsSorted deps.now.producers streams.now masks.now self.old }
        ensures { IfOk result (λ went. went ≡ true → HasGone deps.now.producers streams.now masks.now self.old self.new) }
    {
        match self.next(deps, streams) {
            Some(ready) => self.run(deps, ready),
            None => self.bar(n, streams, masks),
        }
    }

    /// Whether nothing is left of the streams and masks.
    fn is_whole(&self, n: u8, streams: &[Stream], masks: &[Mask]) -> bool
        requires { n ≤ MOST_PROCESSORS }
        ensures streams { result ≡ true → (p : ℕ) → p < n → rest_of streams.now self.now.places p ≡ [] }
        ensures queue { result ≡ true → drop self.now.queue masks.now ≡ [] }
    {
        for p in 0..n {
            if self.places[p as usize] < items_of(streams, p).len() {
                return false;
            }
        }
        self.queue >= masks.len()
    }
}

/// Whether streams and masks have a line in which each tuple stands behind its producers, and each
/// producer is ordered before its tuple. A pair that is ordered in this line is ordered in the line of
/// the streams and masks too.
pub(crate) fn all_ordered(
    alloc: Global,
    block: &Block,
    deps: &Deps,
    streams: &[Stream],
    masks: &[Mask],
    spec: &Spec,
) -> Result<bool, AllocError>
    requires few { length block.now.tuples ≤ MOST_TUPLES }
    requires lined { AreLined (length block.now.tuples) spec.now.processors streams.now masks.now }
    requires deps { AreDepsOf deps.now block.now.tuples }
    ensures { IfOk result (λ all. all ≡ true → NoneWrong Loose (pace_on spec.now block.now.tuples) block.now.tuples
        (line_on spec.now.processors streams.now masks.now)) }
{
    let mut sorting = Sorting::empty(alloc, block, spec)?;
    let n = spec.processors();
    for _ in 0..block.tuples.items().len() + masks.len() {
        if !sorting.step(n, deps, streams, masks)? {
            return Ok(false);
        }
    }
    Ok(sorting.is_whole(n, streams, masks))
}

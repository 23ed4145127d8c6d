// Who waits and who can start: the unit is told who waits.
ghost use Rattle.std.specs.Prelude.{◌≡◌, ◌<◌, ◌≤◌, ◌&&◌, ◌||◌, ◌==◌, ℕ, true, false};
ghost use Rattle.std.specs.Prelude.{IsTrue, Some, None, Option, length, slice_get, map, if◌then◌else◌, nat_lt};
ghost use Rattle.bm_base.specs.Mask.{has_bit};
ghost use Rattle.unit_law.specs.State.{is_free, is_wait, waits, code_at};
ghost use Rattle.unit_law.specs.Units.{has_unfired};
ghost use Rattle.unit_law.specs.Canonical.{is_do};
ghost use Rattle.unit_law.specs.Steps.{passed};
ghost use Rattle.bm_machine.specs.Agenda.{due_at, hold_until};
ghost use Rattle.bm_machine.specs.Seeing.{Sees, UnitStays};
ghost use Rattle.bm_machine.specs.Shown.{work_of, processor_of, standing_at, starts_next, dues_of};
ghost use Rattle.bm_machine.specs.declared.actor.Actor.{Actor};
ghost use Rattle.bm_machine.specs.declared.agenda.Due.{Due};

use crate::actor::{Actor, Task};
use crate::agenda::{Agenda, Due};
use crate::search::{is_waiting, may_start};
use bm_base::{MOST_PROCESSORS, Mask};
use line_model::StreamItem;
use stream_image::Image;
use unit_law::BarrierUnit;

/// Tells the unit that p waits, where it does and the unit has not been told.
fn arrive_if<U: BarrierUnit>(unit: &mut U, told: &mut Mask, p: u8, waits: bool)
    requires one { p < MOST_PROCESSORS }
    requires told { U.waiting unit.old ≡ told.old }
    requires unfired { IsTrue waits → has_unfired (U.queue unit.old) (U.fired unit.old) p ≡ true }
    ensures told { U.waiting unit.new ≡ told.new }
    ensures bits { (q : ℕ) → has_bit told.new q ≡ (has_bit told.old q || (waits && q == p)) }
    ensures unit { UnitStays U.queue U.fired U.capacity U.choice unit.old unit.new }
{
    if waits && !told.has(p) {
        unit.arrive(p);
        told.insert(p);
    }
}

/// Adds p, where it can start a tuple.
fn add_if(able: &mut Mask, p: u8, starts: bool)
    requires { p < MOST_PROCESSORS }
    ensures { (q : ℕ) → has_bit able.new q ≡ (has_bit able.old q || (starts && q == p)) }
{
    if starts {
        able.insert(p);
    }
}

/// Sees whether p waits or can start a tuple.
pub(crate) fn see<U: BarrierUnit>(
    unit: &mut U,
    told: &mut Mask,
    able: &mut Mask,
    stream: &[StreamItem],
    p: u8,
    actor: &Actor,
    clock: u64,
)
    requires one { p < MOST_PROCESSORS }
    requires told { U.waiting unit.old ≡ told.old }
    requires unfired { (is_free clock (work_of actor.now.task) && is_wait (slice_get stream.now actor.now.place)) ≡ true
        → has_unfired (U.queue unit.old) (U.fired unit.old) p ≡ true }
    ensures told { U.waiting unit.new ≡ told.new }
    ensures bits { (q : ℕ) → has_bit told.new q
        ≡ (has_bit told.old q || ((is_free clock (work_of actor.now.task) && is_wait (slice_get stream.now actor.now.place)) && q == p)) }
    ensures able { (q : ℕ) → has_bit able.new q
        ≡ (has_bit able.old q || ((is_free clock (work_of actor.now.task) && is_do (slice_get stream.now actor.now.place)) && q == p)) }
    ensures unit { UnitStays U.queue U.fired U.capacity U.choice unit.old unit.new }
{
    arrive_if(unit, told, p, is_waiting(stream, actor, clock));
    add_if(able, p, may_start(stream, actor, clock));
}

/// Sees of each member of the mask whether it waits or can start a tuple. Of all others it is known.
pub(crate) fn see_members<U: BarrierUnit>(
    unit: &mut U,
    told: &mut Mask,
    able: &mut Mask,
    image: &Image,
    block: u32,
    actors: &[Actor],
    clock: u64,
    mask: Mask,
)
    requires block { block < length image.now.blocks }
    requires long { length actors.now ≡ image.now.machine.processors }
    requires members { (p : ℕ) → has_bit mask p ≡ true → p < image.now.machine.processors }
    requires told { U.waiting unit.old ≡ told.old }
    requires waits { (p : ℕ) → has_bit told.old p ≡ true → waits (code_at image.now block) (standing_at clock actors.now) p ≡ true }
    requires starts { (p : ℕ) → has_bit able.old p ≡ true → starts_next (code_at image.now block) (standing_at clock actors.now) p ≡ true }
    requires known { (p : ℕ) → has_bit mask p ≡ false
        → has_bit told.old p ≡ waits (code_at image.now block) (standing_at clock actors.now) p }
    requires known_starts { (p : ℕ) → has_bit mask p ≡ false
        → has_bit able.old p ≡ starts_next (code_at image.now block) (standing_at clock actors.now) p }
    requires unfired { (p : ℕ) → waits (code_at image.now block) (standing_at clock actors.now) p ≡ true
        → has_unfired (U.queue unit.old) (U.fired unit.old) p ≡ true }
    ensures sees { Sees (code_at image.now block) (standing_at clock actors.now) (U.waiting unit.new) told.new able.new }
    ensures unit { UnitStays U.queue U.fired U.capacity U.choice unit.old unit.new }
{
    let mut from = 0;
    while let Some(p) = mask.next_member(from) {
        let items = image.stream(block, p);
        see(unit, told, able, items, p, &actors[p as usize], clock);
        from = p + 1;
    }
}

/// Takes the holds that end at this tick out of the agenda, and sees whether their processors then
/// wait or can start a tuple. Nothing ends before this tick.
pub(crate) fn release<U: BarrierUnit>(
    unit: &mut U,
    told: &mut Mask,
    able: &mut Mask,
    agenda: &mut Agenda,
    image: &Image,
    block: u32,
    actors: &[Actor],
    clock: u64,
    tick: u64,
)
    requires block { block < length image.now.blocks }
    requires long { length actors.now ≡ image.now.machine.processors }
    requires few { image.now.machine.processors ≤ MOST_PROCESSORS }
    requires later { clock ≤ tick }
    requires agenda { agenda.old ≡ dues_of clock (map processor_of actors.now) }
    requires least { (p : ℕ) (due : Due) → due_at agenda.old p ≡ Some due → tick ≤ due.tick }
    requires sees { Sees (code_at image.now block) (standing_at clock actors.now) (U.waiting unit.old) told.old able.old }
    requires unfired { (p : ℕ) → waits (code_at image.now block) (standing_at tick actors.now) p ≡ true
        → has_unfired (U.queue unit.old) (U.fired unit.old) p ≡ true }
    ensures agenda { agenda.new ≡ dues_of tick (map processor_of actors.now) }
    ensures sees { Sees (code_at image.now block) (standing_at tick actors.now) (U.waiting unit.new) told.new able.new }
    ensures unit { UnitStays U.queue U.fired U.capacity U.choice unit.old unit.new }
{
    while let Some(p) = agenda.pop_hold(tick) {
        let items = image.stream(block, p);
        see(unit, told, able, items, p, &actors[p as usize], tick);
    }
}

/// The members of the mask pass their waits, and are held until this tick.
pub(crate) fn pass(actors: &mut [Actor], mask: Mask, until: u64)
    requires members { (p : ℕ) → has_bit mask p ≡ true → p < length actors.old }
    requires short { (p : ℕ) (a : Actor) → slice_get actors.old p ≡ Some a → has_bit mask p ≡ true → a.place < 18446744073709551615 }
    ensures { map processor_of actors.new ≡ passed until mask 0 (map processor_of actors.old) }
{
    let mut from = 0;
    while let Some(p) = mask.next_member(from) {
        let place = actors[p as usize].place;
        actors[p as usize] = Actor {
            place: place + 1,
            task: Task::Stays { until },
        };
        from = p + 1;
    }
}

/// Puts the holds of the members of the mask into the agenda, where they end past the clock.
pub(crate) fn hold(agenda: &mut Agenda, mask: Mask, clock: u64, until: u64)
    requires members { (p : ℕ) → has_bit mask p ≡ true → p < length agenda.old }
    requires new { (p : ℕ) → has_bit mask p ≡ true → due_at agenda.old p ≡ None }
    ensures long { length agenda.new ≡ length agenda.old }
    ensures held { (p : ℕ) → p < length agenda.old → has_bit mask p ≡ true
        → due_at agenda.new p ≡ (if nat_lt clock until then Some (hold_until until) else None) }
    ensures other { (p : ℕ) → has_bit mask p ≡ false → due_at agenda.new p ≡ due_at agenda.old p }
{
    if until <= clock {
        return;
    }
    let mut from = 0;
    while let Some(p) = mask.next_member(from) {
        agenda.insert(p, Due::hold(until));
        from = p + 1;
    }
}

// A machine that runs an image, event by event.
ghost use Rattle.std.specs.Prelude.{◌≡◌, ◌+◌, ◌<◌, ◌≤◌, ◌++◌, IfOk, IfSome, IfNone, Some, None, true, List, ℕ, length, get_or, replicate};
ghost use Rattle.bm_base.specs.Memories.{IsMemoryOf};
ghost use Rattle.tuple_ir.specs.declared.event.Event.TheVariants.{Entered, Ended as Over, Reached};
ghost use Rattle.line_model.specs.Streams.{masks};
ghost use Rattle.unit_law.specs.State.{In, Entering, Ended, code_at, start, processor, is_due, waiting_mask};
ghost use Rattle.unit_law.specs.Units.{first_from};
ghost use Rattle.unit_law.specs.Steps.{Action, Finish, Advance, Branch, Enter, May, NoneDue, after, least_tick, target};
ghost use Rattle.unit_law.specs.Canonical.{can_start, block_branch};
ghost use Rattle.bm_machine.specs.Shown.{IsReached};
ghost use Rattle.bm_machine.specs.Next.{Stays, Takes, StandsFor, is_at, printed_by, IsPast, goes_on, left_in, most_left, still};
ghost use Rattle.bm_machine.specs.Next.{ProducersHaveFinished};
ghost use Rattle.bm_machine.specs.Moves.{Stands, Does, Starts, fires, IsIdle, acts, branches, Answers};

use crate::actor::{Actor, Stage, Task};
use crate::agenda::{Agenda, Due};
use crate::arrive::{hold, pass, release, see, see_members};
use crate::history::History;
use crate::laws::image_laws;
use crate::search::{everyone, lowest, without_one};
use crate::work::{cell, finish_event, print, put, read, value};
use bm_base::{MOST_BUDGET, MOST_TUPLES, Mask, Store};
use line_model::StreamItem;
use std::alloc::{AllocError, Global};
use std::marker::Model;
use stream_image::Image;
use timing_law::Timing;
use tuple_ir::{Event, Next, Tuple, class};
use unit_law::{
    BarrierUnit, canonical_runs_are_runs, choices_are_lawful, runs_keep_memories,
    waiting_processors_have_masks,
};

/// A run of an image on a barrier unit with a timing.
#[derive(Drop)]
pub struct Machine<'a, U: BarrierUnit, T: Timing> {
    image: &'a Image,
    unit: U,
    timing: T,
    clock: u64,
    stage: Stage,
    actors: Vec<Actor>,
    counts: Vec<u64>,
    told: Mask,
    able: Mask,
    agenda: Agenda,
    cells: Vec<i64>,
    store: Store,
    output: History<i64>,
}

impl<'a, U: BarrierUnit, T: Timing> Model for Machine<'a, U, T> {
    ghost use Rattle.std.specs.Prelude.{map};
    ghost use Rattle.bm_machine.specs.Shown.{Shown, processor_of, mode_of, IsRunning};

    ghost Value = { Shown U T };

    ghost view = { λ m. record {
      program = m.image.now;
      state = record {
        clock = m.clock;
        mode = mode_of m.stage;
        processors = map processor_of m.actors.items;
        fired = U.fired m.unit;
        world = record { cells = m.cells.items; memory = m.store; output = m.output.items };
      };
      counts = m.counts.items;
      unit = m.unit;
      timing = m.timing;
    } };

    ghost invariant = { λ m. IsRunning m.image.now (record {
      clock = m.clock;
      mode = mode_of m.stage;
      processors = map processor_of m.actors.items;
      fired = U.fired m.unit;
      world = record {
        cells = m.cells.items;
        memory = m.store;
        output = m.output.items;
      };
    }) m.counts.items m.told (U.capacity m.unit) (U.queue m.unit) (U.waiting m.unit) m.able m.agenda };
}

impl<'a, U: BarrierUnit, T: Timing> Machine<'a, U, T> {
    /// A machine before the first event of the run of this image from this memory. It takes all the
    /// memory that the run will need.
    pub fn new(
        alloc: Global,
        image: &'a Image,
        store: Store,
        unit: U,
        timing: T,
    ) -> Result<Machine<'a, U, T>, AllocError>
        requires memory { IsMemoryOf image.now.names store }
        requires room { (b : ℕ) → length (masks (code_at image.now b).line) ≤ U.capacity unit }
        ensures program { IfOk result (λ machine. machine.program ≡ image.now) }
        ensures state { IfOk result (λ machine. machine.state ≡ start image.now store) }
        ensures counts { IfOk result (λ machine. machine.counts ≡ replicate image.now.machine.processors 0) }
        ensures choice { IfOk result (λ machine. U.choice machine.unit ≡ U.choice unit) }
        ensures timing { IfOk result (λ machine. machine.timing ≡ timing) }
    {
        // Only for its contract.
        image_laws(image);
        let processors = usize::from(image.spec().processors());
        let rest = Actor {
            place: 0,
            task: Task::Rest,
        };
        let actors = vec![in alloc; rest; processors]?;
        let counts = vec![in alloc; 0; processors]?;
        let cells = vec![in alloc; 0; MOST_TUPLES]?;
        let agenda = Agenda::new(alloc, processors)?;
        let mut unit = unit;
        let mut told = Mask::empty();
        let mut able = Mask::empty();
        unit.load(image.masks(0));
        see_members(
            &mut unit,
            &mut told,
            &mut able,
            image,
            0,
            &actors,
            0,
            everyone(image.spec().processors()),
        );
        Ok(Machine {
            image,
            unit,
            timing,
            clock: 0,
            stage: Stage::Inside { block: 0 },
            actors,
            counts,
            told,
            able,
            agenda,
            cells,
            store,
            output: History::new(),
        })
    }

    /// What always holds: a run from a memory of the names has come to the state, in which each
    /// processor has started at most one tuple more than there are ticks by now; the unit knows which
    /// masks have fired, and within a block holds its masks and who waits.
    pub fn laws(&self)
        ensures reached { IsReached self.now.program self.now.state self.now.counts }
        ensures few { (p : ℕ) → get_or self.now.counts p 0 ≤ self.now.state.clock + 1 }
        ensures fired { U.fired self.now.unit ≡ self.now.state.fired }
        ensures unit { (b : ℕ) → self.now.state.mode ≡ In b → (U.queue self.now.unit ≡ masks (code_at self.now.program b).line)
            × (U.waiting self.now.unit ≡ waiting_mask (code_at self.now.program b) self.now.state) }
    {
        let _ = &self.unit;
    }

    /// The memory, one of the names of the program.
    pub fn store(&self) -> &Store
        ensures value { result.now ≡ self.now.state.world.memory }
        ensures memory { IsMemoryOf self.now.program.names result.now }
    {
        // Only for its contract.
        runs_keep_memories();
        &self.store
    }

    /// The clock, in ticks.
    pub fn clock(&self) -> u64
        ensures value { result ≡ self.now.state.clock }
        ensures early { result ≤ MOST_BUDGET }
    {
        self.clock
    }
}

impl<'a, U: BarrierUnit, T: Timing> Machine<'a, U, T> {
    /// What always holds.
    fn facts(&self)
        ensures stands { Stands self.now.program self.now.state }
        ensures ticks { (b tick : ℕ) → self.now.state.mode ≡ In b → least_tick self.now.state.clock self.now.state.processors ≡ Some tick
            → self.now.state.clock ≤ tick }
        ensures blocks { (b : ℕ) → self.now.state.mode ≡ In b → b < length self.now.program.blocks }
    {
        image_laws(self.image);
        let _processors = self.image.spec().processors();
        let _delay = self.image.spec().barrier();
        waiting_processors_have_masks();
    }

    /// The block in which the run is, None once it has ended.
    fn block(&self) -> Option<u32>
        ensures within { IfSome result (λ block. (self.now.state.mode ≡ In block) × (block < length self.now.program.blocks)) }
        ensures over { IfNone result (self.now.state.mode ≡ Ended) }
    {
        match self.stage {
            Stage::Inside { block } => Some(block),
            Stage::Over => None,
        }
    }

    /// The lowest processor whose Finish is due: the first of the agenda, where it ends by now.
    fn lowest_due(&self) -> Option<u8>
        requires { (b : ℕ) × (self.now.state.mode ≡ In b) }
        ensures { result ≡ first_from
            (λ p. is_due self.now.state.clock (processor self.now.state p).work) 0 self.now.program.machine.processors }
    {
        // Only for its contract.
        self.facts();
        match self.agenda.first() {
            Some(entry) if entry.due.tick == self.clock => Some(entry.processor),
            _ => None,
        }
    }

    /// The lowest processor that can start a tuple of this block.
    fn lowest_start(&self, block: u32) -> Option<u8>
        requires { self.now.state.mode ≡ In block }
        ensures { result ≡ first_from (can_start (code_at self.now.program block) self.now.state) 0 self.now.program.machine.processors }
    {
        // Only for its contract.
        self.facts();
        lowest(self.able)
    }

    /// The least tick of the processors that are busy or held, None where all are free: that of the
    /// first of the agenda.
    fn least_tick(&self) -> Option<u64>
        ensures { result ≡ least_tick self.now.state.clock self.now.state.processors }
    {
        // Only for its contract.
        self.facts();
        match self.agenda.first() {
            Some(entry) => Some(entry.due.tick),
            None => None,
        }
    }

    /// Starts processor p's next tuple.
    fn start(&mut self, block: u32, p: u8) -> Event
        requires within { self.old.state.mode ≡ In block }
        requires none_due { NoneDue self.old.state }
        requires one { p < self.old.program.machine.processors }
        requires can { can_start (code_at self.old.program block) self.old.state p ≡ true }
        ensures stays { Stays U.choice self.old self.new }
        ensures starts { Starts (T.duration self.old.timing) self.old.program block p self.old.counts self.old.state result
            self.new.counts self.new.state }
    {
        // Only for their contracts.
        image_laws(self.image);
        let _processors = self.image.spec().processors();
        let actor = self.actors[p as usize];
        let StreamItem::Do { tuple: number } = self.image.stream(block, p)[actor.place] else {
            unreachable!()
        };
        let tuple = self.image.tuples(block)[number as usize];
        let words = read(tuple, &self.cells, &self.store);
        let interval = self.image.spec().time(class(tuple));
        let time = self.timing.time(p, self.counts[p as usize], interval);
        let until = self.clock + u64::from(time);
        self.counts[p as usize] += 1;
        self.able = without_one(self.able, p);
        self.agenda.insert(p, Due::finish(until));
        self.actors[p as usize] = Actor {
            place: actor.place + 1,
            task: Task::Runs {
                until,
                tuple: number,
                count: words.count,
                first: words.first,
                second: words.second,
            },
        };
        Event::Started {
            at: self.clock,
            processor: p,
            tuple: number,
            time,
        }
    }

    /// Finishes the tuple that processor p works on.
    fn finish(&mut self, block: u32, p: u8) -> Event
        requires within { self.old.state.mode ≡ In block }
        requires one { p < self.old.program.machine.processors }
        requires due { is_due self.old.state.clock (processor self.old.state p).work ≡ true }
        requires lowest { first_from (λ q. is_due self.old.state.clock (processor self.old.state q).work) 0
            self.old.program.machine.processors ≡ Some p }
        ensures stays { Stays U.choice self.old self.new }
        ensures finishes { Does self.old.program self.old.state self.old.counts (Finish p) result self.new.counts self.new.state }
    {
        // Only for their contracts.
        image_laws(self.image);
        let _processors = self.image.spec().processors();
        let actor = self.actors[p as usize];
        let Task::Runs {
            tuple: number,
            first,
            second,
            ..
        } = actor.task
        else {
            unreachable!()
        };
        let tuple = self.image.tuples(block)[number as usize];
        let value = value(tuple, first, second);
        put(
            tuple,
            number,
            first,
            value,
            &mut self.cells,
            &mut self.store,
        );
        print(tuple, value, &mut self.output);
        let rested = Actor {
            place: actor.place,
            task: Task::Rest,
        };
        self.actors[p as usize] = rested;
        self.agenda.pop(p);
        see(
            &mut self.unit,
            &mut self.told,
            &mut self.able,
            self.image.stream(block, p),
            p,
            &rested,
            self.clock,
        );
        finish_event(tuple, self.clock, p, number, value)
    }

    /// Fires the mask that the unit picks.
    fn fire(&mut self, block: u32) -> Option<Event>
        requires within { self.old.state.mode ≡ In block }
        requires none_due { NoneDue self.old.state }
        ensures stays { Stays U.choice self.old self.new }
        ensures fires { fires (U.choice self.old.unit) self.old.program block self.old.counts self.old.state result self.new.counts
            self.new.state }
    {
        // Only for their contracts.
        self.facts();
        choices_are_lawful();
        let j = self.unit.pick()?;
        let mask = self.image.masks(block)[j];
        let until = self.clock + u64::from(self.image.spec().barrier());
        self.told = self.told.without(mask);
        pass(&mut self.actors, mask, until);
        hold(&mut self.agenda, mask, self.clock, until);
        see_members(
            &mut self.unit,
            &mut self.told,
            &mut self.able,
            self.image,
            block,
            &self.actors,
            self.clock,
            mask,
        );
        Some(Event::Fired {
            at: self.clock,
            index: j as u8,
            mask,
        })
    }

    /// Moves the clock to the least tick of the processors that are busy or held. Whose hold is over
    /// then, and whose next item is a wait, arrives.
    fn advance(&mut self, block: u32, tick: u64)
        requires within { self.old.state.mode ≡ In block }
        requires idle { IsIdle (U.choice self.old.unit) self.old.program block self.old.state }
        requires least { least_tick self.old.state.clock self.old.state.processors ≡ Some tick }
        requires early { tick ≤ MOST_BUDGET }
        ensures stays { Stays U.choice self.old self.new }
        ensures counts { self.new.counts ≡ self.old.counts }
        ensures may { May self.old.program self.old.state Advance }
        ensures effect { self.new.state ≡ after self.old.program self.old.state Advance }
        ensures later { self.old.state.clock < tick }
    {
        // Only for their contracts.
        self.facts();
        let _processors = self.image.spec().processors();
        let clock = self.clock;
        self.clock = tick;
        release(
            &mut self.unit,
            &mut self.told,
            &mut self.able,
            &mut self.agenda,
            self.image,
            block,
            &self.actors,
            clock,
            tick,
        );
    }

    /// Ends the run, where the block's streams have ended.
    fn halt(&mut self, block: u32) -> Event
        requires within { self.old.state.mode ≡ In block }
        requires may { May self.old.program self.old.state Branch }
        requires halts { target (code_at self.old.program block).next self.old.state.world ≡ Ended }
        ensures stays { Stays U.choice self.old self.new }
        ensures counts { self.new.counts ≡ self.old.counts }
        ensures effect { self.new.state ≡ after self.old.program self.old.state Branch }
        ensures event { result ≡ Over self.old.state.clock }
    {
        // Only for its contract.
        self.facts();
        self.stage = Stage::Over;
        Event::Ended { at: self.clock }
    }

    /// Enters the next block one tick later, where this one's streams have ended.
    fn enter(&mut self, block: u32, next: u32) -> Event
        requires within { self.old.state.mode ≡ In block }
        requires may { May self.old.program self.old.state Branch }
        requires leads { target (code_at self.old.program block).next self.old.state.world ≡ Entering next }
        requires early { self.old.state.clock < MOST_BUDGET }
        ensures stays { Stays U.choice self.old self.new }
        ensures counts { self.new.counts ≡ self.old.counts }
        ensures effect { self.new.state ≡ after self.old.program (after self.old.program self.old.state Branch) Enter }
        ensures event { result ≡ Entered (self.old.state.clock + 1) next }
        ensures left { left_in self.new.program self.new.state self.new.state.mode < most_left }
    {
        // Only for its contract.
        self.facts();
        self.clock += 1;
        self.stage = Stage::Inside { block: next };
        self.actors.fill(Actor {
            place: 0,
            task: Task::Rest,
        });
        self.agenda.clear();
        self.told = Mask::empty();
        self.able = Mask::empty();
        self.unit.load(self.image.masks(next));
        see_members(
            &mut self.unit,
            &mut self.told,
            &mut self.able,
            self.image,
            next,
            &self.actors,
            self.clock,
            everyone(self.image.spec().processors()),
        );
        Event::Entered {
            at: self.clock,
            block: next,
        }
    }

    /// The block that follows, None at the end.
    fn target(&self, block: u32) -> Option<u32>
        requires { block < length self.now.program.blocks }
        ensures some { IfSome result (λ next. target (code_at self.now.program block).next self.now.state.world ≡ Entering next) }
        ensures none { IfNone result (target (code_at self.now.program block).next self.now.state.world ≡ Ended) }
    {
        match self.image.next(block) {
            Next::Halt => None,
            Next::Goto { block: next } => Some(next),
            Next::If { cell: c, yes, no } => Some(if cell(&self.cells, c) == 0 { no } else { yes }),
        }
    }

    /// Where nothing else can be done within a block, its streams have ended, and the canonical run
    /// leaves it.
    fn leaves(&self, block: u32)
        requires within { self.now.state.mode ≡ In block }
        requires idle { IsIdle (U.choice self.now.unit) self.now.program block self.now.state }
        requires none_works { least_tick self.now.state.clock self.now.state.processors ≡ None }
        ensures may { May self.now.program self.now.state Branch }
        ensures canonical { block_branch self.now.program (code_at self.now.program block) self.now.state ≡ Some Branch }
    {
        self.facts();
        canonical_runs_are_runs();
        let _clock = self.clock;
    }

    /// Leaves a block where nothing else can be done, unless the next is entered past `until`.
    fn branch(&mut self, block: u32, until: u64) -> Event
        requires within { self.old.state.mode ≡ In block }
        requires idle { IsIdle (U.choice self.old.unit) self.old.program block self.old.state }
        requires none_works { least_tick self.old.state.clock self.old.state.processors ≡ None }
        requires early { until ≤ MOST_BUDGET }
        ensures stays { Stays U.choice self.old self.new }
        ensures counts { self.new.counts ≡ self.old.counts }
        ensures may { May self.old.program self.old.state Branch }
        ensures canonical { block_branch self.old.program (code_at self.old.program block) self.old.state ≡ Some Branch }
        ensures branches { branches self.old.program block until self.old.state result self.new.state }
    {
        // Only for their contracts.
        self.facts();
        self.leaves(block);
        match self.target(block) {
            None => self.halt(block),
            Some(_) if self.clock >= until => Event::Reached,
            Some(next) => self.enter(block, next),
        }
    }

    /// Does what the canonical run does next at this clock, if anything: a due Finish, what the unit
    /// picks, or a Start.
    fn act(&mut self, block: u32) -> Option<Event>
        requires within { self.old.state.mode ≡ In block }
        ensures stays { Stays U.choice self.old self.new }
        ensures acts { acts (U.choice self.old.unit)
            (T.duration self.old.timing) self.old.program block self.old.counts self.old.state result self.new.counts self.new.state }
    {
        // Only for its contract.
        self.facts();
        if let Some(p) = self.lowest_due() {
            return Some(self.finish(block, p));
        }
        if let Some(event) = self.fire(block) {
            return Some(event);
        }
        match self.lowest_start(block) {
            Some(p) => Some(self.start(block, p)),
            None => None,
        }
    }

    /// Goes on until the next event, or as far as the clock may go: where nothing can be done at a
    /// clock it is moved, or the block is left.
    fn go_on(&mut self, block: u32, until: u64) -> Event
        requires within { self.old.state.mode ≡ In block }
        requires early { self.old.state.clock ≤ until }
        requires limit { until ≤ MOST_BUDGET }
        ensures stays { Stays U.choice self.old self.new }
        ensures answers { Answers (U.choice self.old.unit)
            (T.duration self.old.timing) self.old.program self.old.counts self.old.state until result self.new.counts self.new.state }
    {
        // Only for its contract.
        self.facts();
        loop {
            if let Some(event) = self.act(block) {
                return event;
            }
            // Only for its contract.
            self.facts();
            match self.least_tick() {
                None => return self.branch(block, until),
                Some(tick) if tick > until => return Event::Reached,
                Some(tick) => self.advance(block, tick),
            }
        }
    }

    /// The next event of the run, unless its clock would pass `until`.
    ///
    /// It takes the next actions of the canonical run on the unit's choice with this timing, up to the
    /// first that gives an event (`event_of`), which is the answer: a Finish, a Fire or a Start with
    /// the Advances that stand before it, or a Branch with the Enter behind it. `Reached` comes
    /// exactly where the event's clock would pass `until`; then the clock has gone on, at most to
    /// `until`, by the Advances that stand before that event, and nothing else has changed. `Ended`
    /// comes with the Branch that ends the run, and again at later calls. Once a tuple starts, its
    /// producers have all finished in this execution of its block. It takes no memory.
    pub fn next(&mut self, until: u64) -> Event
        requires { until ≤ MOST_BUDGET }
        ensures stays { Stays U.choice self.old self.new }
        ensures steps { (actions : List Action) × StandsFor self.old.program self.old.state result actions
            × Takes (U.choice self.old.unit)
            (T.duration self.old.timing) self.old.program self.old.counts self.old.state actions self.new.counts self.new.state }
        ensures output { self.new.state.world.output ≡ self.old.state.world.output ++ printed_by result }
        ensures at { is_at result self.new.state }
        ensures in_time { self.old.state.clock ≤ until → self.new.state.clock ≤ until }
        ensures late { until < self.old.state.clock → (result ≡ Reached) × (self.new.state ≡ self.old.state) }
        ensures reached { result ≡ Reached
            → IsPast (U.choice self.old.unit) (T.duration self.old.timing) self.old.program self.new.counts self.new.state until }
        ensures ended { self.old.state.clock ≤ until → self.old.state.mode ≡ Ended → result ≡ Over self.old.state.clock }
        ensures falls { goes_on result ≡ true → still until self.new.program self.new.state < still until self.old.program self.old.state }
        ensures producers { ProducersHaveFinished self.old.program self.old.state result }
    {
        // Only for its contract.
        self.facts();
        if self.clock() > until {
            return Event::Reached;
        }
        match self.block() {
            Some(block) => self.go_on(block, until),
            None => Event::Ended { at: self.clock() },
        }
    }
}

// What happens in a run.
use bm_base::Mask;

/// One event of a run. `at` is its tick, counted from 0 at the run's start; `processor` counts from 0;
/// `tuple` is a number in the block that runs, and `block` one in the program.
#[derive(Clone, Copy)]
pub enum Event {
    /// A processor begins a tuple, which takes `time` ticks.
    Started {
        at: u64,
        processor: u8,
        tuple: u8,
        time: u16,
    },
    /// A processor has finished a tuple that is no print; `value` is the value that it gave or wrote.
    Finished {
        at: u64,
        processor: u8,
        tuple: u8,
        value: i64,
    },
    /// A processor has finished a print of `value`.
    Printed {
        at: u64,
        processor: u8,
        tuple: u8,
        value: i64,
    },
    /// Mask number `index` of the block's queue, counted from 0, has fired.
    Fired {
        at: u64,
        index: u8,
        mask: Mask,
    },
    /// A block is entered.
    Entered {
        at: u64,
        block: u32,
    },
    /// The run has ended.
    Ended {
        at: u64,
    },
    /// The next event lies behind the tick that was asked for.
    Reached,
}

// What blocks add to a summary.
ghost use Rattle.std.specs.Prelude.{◌≡◌, ◌<◌, ◌≤◌, ◌-◌, ◌^◌, [], length};
ghost use Rattle.line_model.specs.Streams.{masks};
ghost use Rattle.compiled_image.specs.Summarised.{summary_of};
ghost use Rattle.compiled_image.specs.Counts.{AreUpTo, HasRoom, with_block};

use crate::Plan;
use crate::pairs::Tally;
use bm_base::{MOST_MASKS, MOST_TUPLES};
use bm_report::Summary;
use line_model::{Item, Line};
use tuple_ir::Block;

/// The summary of no blocks.
pub(crate) fn of_no_blocks() -> Summary
    ensures summary { result ≡ summary_of [] [] }
    ensures room { HasRoom result }
{
    Summary {
        blocks: 0,
        tuples: 0,
        pairs: 0,
        by_processor: 0,
        by_barrier: 0,
        by_time: 0,
        inserted: 0,
        kept: 0,
        makespan: 0,
        work: 0,
        longest: 0,
    }
}

/// How many barriers a line has, of at most 128.
fn bars(line: &Line) -> u32
    requires { length (masks line.now.items) ≤ MOST_MASKS }
    ensures { result ≡ length (masks line.now.items) }
{
    let mut bars = 0;
    for item in line.items.items() {
        if let Item::Bar { .. } = *item {
            bars += 1;
        }
    }
    bars
}

/// The summary with one block more.
pub(crate) fn with_block(summary: &Summary, block: &Block, plan: &Plan, tally: Tally) -> Summary
    requires blocks { summary.now.blocks < 2 ^ 32 - 1 }
    requires room { HasRoom summary.now }
    requires tuples { length block.now.tuples ≤ MOST_TUPLES }
    requires inserted { length (masks plan.now.inserted.items) ≤ MOST_MASKS }
    requires kept { length (masks plan.now.line.items) ≤ MOST_MASKS }
    ensures summary { result ≡ with_block summary.now block.now.tuples plan.now tally }
    ensures room { HasRoom result }
{
    let schedule = &plan.schedule;
    Summary {
        blocks: summary.blocks + 1,
        tuples: summary.tuples + block.tuples.items().len() as u64,
        pairs: summary.pairs + u64::from(tally.pairs),
        by_processor: summary.by_processor + u64::from(tally.processor),
        by_barrier: summary.by_barrier + u64::from(tally.barrier),
        by_time: summary.by_time + u64::from(tally.time),
        inserted: summary.inserted + u64::from(bars(&plan.inserted)),
        kept: summary.kept + u64::from(bars(&plan.line)),
        makespan: summary.makespan + u64::from(schedule.makespan()),
        work: summary.work + u64::from(schedule.work()),
        longest: summary.longest + u64::from(schedule.longest()),
    }
}

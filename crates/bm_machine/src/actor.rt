// One processor of a running machine.

/// What a processor does.
#[derive(Clone, Copy)]
pub(crate) enum Task {
    /// Nothing.
    Rest,
    /// A tuple, until a tick, with the `count` operands that it read.
    Runs {
        until: u64,
        tuple: u8,
        count: usize,
        first: i64,
        second: i64,
    },
    /// Nothing until a tick, since a mask has fired that it is a member of.
    Stays {
        until: u64,
    },
}

/// How many items of its stream a processor has taken up, and what it does.
#[derive(Clone, Copy)]
pub(crate) struct Actor {
    pub place: usize,
    pub task: Task,
}

/// Where a machine is.
#[derive(Clone, Copy)]
pub(crate) enum Stage {
    /// Within a block.
    Inside { block: u32 },
    /// At the run's end.
    Over,
}

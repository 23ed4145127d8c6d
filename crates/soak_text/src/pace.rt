// The paces of the runs.

/// How long the instructions of a run take.
#[derive(Clone, Copy, Debug, PartialEq, Eq)]
pub enum Pace {
    /// Each instruction takes its least time.
    Least,
    /// Each instruction takes its greatest time.
    Most,
    /// Each instruction takes a pseudorandom time from the seed of the program.
    Seeded,
}

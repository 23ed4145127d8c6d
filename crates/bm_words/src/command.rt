// What a command line can ask for.

/// The machine that a command runs on, as a word names it.
#[derive(Clone, Copy)]
pub enum MachineWord<'a> {
    /// The default machine.
    Standard,
    /// The machine that this file describes.
    File { name: &'a str },
}

/// Where in its interval each instruction's time lies.
#[derive(Clone, Copy)]
pub enum ScriptWord<'a> {
    /// Each instruction takes its least time.
    Least,
    /// Each instruction takes its greatest time.
    Most,
    /// Pseudorandom times from this seed.
    Seed { n: u64 },
    /// The times of the script in this file.
    File { name: &'a str },
}

/// The memory that a run or an evaluation begins with, as a word names it.
#[derive(Clone, Copy)]
pub enum DataWord<'a> {
    /// The declared memory.
    Declared,
    /// The declared memory with the values of this file laid over it.
    File { name: &'a str },
}

/// The barrier unit of the machine.
#[derive(Clone, Copy)]
pub enum UnitWord {
    /// The static unit: masks fire in queue order.
    Static,
    /// The dynamic unit: each mask fires once all its members wait.
    Dynamic,
}

/// How a run goes: the words `UNIT SCRIPT DATA BUDGET`.
#[derive(Clone, Copy)]
pub struct RunWords<'a> {
    /// The barrier unit.
    pub unit: UnitWord,
    /// The times of the instructions.
    pub script: ScriptWord<'a>,
    /// The memory that it begins with.
    pub given: DataWord<'a>,
    /// For how many ticks, at most 10^12.
    pub budget: u64,
}

/// A row of the command table. Names of files are not empty.
#[derive(Clone, Copy)]
pub enum Command<'a> {
    /// Evaluate the source of a file, for at most so many turns of its loops.
    Eval {
        /// The name of the source's file.
        program: &'a str,
        /// The memory that it begins with.
        given: DataWord<'a>,
        /// How many turns, at most 10^9.
        turns: u64,
    },
    /// Compile the program of a file for a machine, and run it.
    Go {
        /// The name of the source's file.
        program: &'a str,
        /// The machine that it is compiled for.
        machine: MachineWord<'a>,
        /// How it is run.
        run: RunWords<'a>,
    },
    /// Compile the program of a file for a machine, into a file.
    Compile {
        /// The name of the source's file.
        program: &'a str,
        /// The machine that it is compiled for.
        machine: MachineWord<'a>,
        /// The name of the file that is written.
        out: &'a str,
    },
    /// List the blocks of the program of a file, as they are compiled for a machine.
    Show {
        /// The name of the source's file.
        program: &'a str,
        /// The machine that it is compiled for.
        machine: MachineWord<'a>,
    },
    /// Run the image of a file.
    Run {
        /// The name of the image's file.
        image: &'a str,
        /// How it is run.
        run: RunWords<'a>,
    },
    /// Tell the events of the run of the image of a file.
    Trace {
        /// The name of the image's file.
        image: &'a str,
        /// How it is run.
        run: RunWords<'a>,
    },
    /// Count what the image of a file has.
    Check {
        /// The name of the image's file.
        image: &'a str,
    },
    /// Make a program from a number, compile it, evaluate it, and run it on both units.
    Soak {
        /// The number that it is made from.
        seed: u64,
        /// How many items its body has, at most 10,000.
        statements: u32,
    },
}

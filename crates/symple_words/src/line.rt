/// How the graph's file is to be read.
#[derive(Clone, Copy, Debug, PartialEq, Eq)]
pub struct GraphForm {
    /// How many vertices there are, where the line says it.
    pub vertices: Option<u32>,
    /// Whether each edge comes with its reversal.
    pub both: bool,
    /// Whether the file is binary.
    pub binary: bool,
    /// Whether the edges of a binary file have weights.
    pub weighted: bool,
}

/// Which lines a run writes before its table.
#[derive(Clone, Copy, Debug, PartialEq, Eq)]
pub struct Lines {
    /// A line for each round.
    pub rounds: bool,
    /// In each round a line for each vertex that read others.
    pub reads: bool,
    /// A line for each event.
    pub log: bool,
}

/// What is run, and on what.
#[derive(Debug, Drop)]
pub struct Job {
    /// The name of the program's file.
    pub program: String,
    /// The name of the graph's file.
    pub graph: String,
    pub form: GraphForm,
    pub lines: Lines,
    /// The number that the vertices' draws are made from.
    pub draws: u64,
}

/// The line of a command: a variant for each. Machines are 1 to 64 everywhere.
#[derive(Debug, Drop)]
pub enum Line {
    /// `run`, with the name under which images are stored, where they are.
    RunLine {
        job: Job,
        machines: u8,
        image: Option<String>,
    },
    /// `record`, with the name of the file that the schedule goes to; `lossy` is for links that lose.
    RecordLine {
        job: Job,
        schedule: String,
        machines: u8,
        seed: u64,
        lossy: bool,
    },
    /// `replay`, with the name of the schedule's file.
    ReplayLine {
        job: Job,
        schedule: String,
    },
    /// `show`, with the name of the program's file.
    ShowLine {
        program: String,
    },
    /// `plan`, with the name of the graph's file.
    PlanLine {
        graph: String,
        form: GraphForm,
        machines: u8,
    },
    /// `demo`.
    DemoLine {
        seed: u64,
        machines: u8,
    },
    /// `renew`, with the name of the schedule's file and of the new one.
    RenewLine {
        schedule: String,
        target: String,
    },
    /// `split`, with the names of the files, and the one that the parts' names begin with.
    SplitLine {
        program: String,
        graph: String,
        prefix: String,
        form: GraphForm,
        machines: u8,
        draws: u64,
    },
    /// `worker`, with the names of the part's file and of the file that the rows go to.
    WorkerLine {
        part: String,
        rows: String,
    },
    /// `free`, with the name of the program's file.
    FreeLine {
        program: String,
    },
    /// `resume`, with the name under which images are stored.
    ResumeLine {
        job: Job,
        image: String,
        machines: u8,
    },
}

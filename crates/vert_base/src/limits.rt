//! How much the product takes at most.

/// The most machines of a run.
pub const MACHINES: usize = 64;

/// The most vertices of a graph. Ids are below it.
pub const VERTICES: u32 = 2_097_152;

/// The most edges of a graph, reversals included.
pub const EDGES: u32 = 8_388_608;

/// The greatest `limit` of a program, in rounds.
pub const ROUNDS: u32 = 10_000;

/// The most bytes of a program's text.
pub const PROGRAM_BYTES: u64 = 65_536;

/// The most bytes of a graph file, and of a part file.
pub const GRAPH_BYTES: u64 = 268_435_456;

/// The most bytes of a schedule's text.
pub const SCHEDULE_BYTES: u64 = 67_108_864;

/// The most bytes of an image when it is loaded.
pub const IMAGE_BYTES: u64 = 1_073_741_824;

/// The most fields of a program.
pub const FIELDS: usize = 16;

/// The most slots of a program.
pub const SLOTS: usize = 8;

/// The most lets of a dense block.
pub const LOCALS: usize = 8;

/// The most sends of a sparse block.
pub const SENDS: usize = 8;

/// The most totals of a program.
pub const TOTALS: usize = 4;

/// The greatest depth of a program: how many `if`s and expressions are nested in one another.
pub const DEPTH: usize = 64;

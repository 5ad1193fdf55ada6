//! The graphs of the examples, each by the name of its file.

/// Two ways from 0 to 3.
pub static DIAMOND: &str = "0 1
0 2
1 3
2 3
";

/// No edge.
pub static EMPTY: &str = "";

/// One edge.
pub static ONE_EDGE: &str = "0 1
";

/// Three vertices in a row.
pub static PATH: &str = "0 1
1 2
";

/// Three edges into 1, and one back.
pub static THREE_INTO_ONE: &str = "0 1
2 1
3 1
1 0
";

/// A triangle and one vertex more.
pub static TRIANGLE_WITH_TAIL: &str = "0 1
1 2
0 2
0 3
";

/// Two edges into 2.
pub static TWO_INTO_ONE: &str = "0 2
1 2
";

/// A cycle and a chord with weights.
pub static WEIGHTED_CYCLE: &str = "0 1 5
1 2 7
2 0 -3
0 2 4
";

/// Edges into 1 with weights, two of them between the same vertices.
pub static WEIGHTED_INTO_ONE: &str = "2 1 4
0 1 9
0 1 5
";

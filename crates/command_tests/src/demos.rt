//! Demonstrations, in the form of the rows of runs. Each number is that of a simulation by the definitions in
//! another language.

/// Demonstrations. The first claim of a vertex counts, and which is the first depends on where chunks end, so
/// that tables and digests differ from one number of machines to the next; distances, and so rounds, do not.
pub(super) static DEMOS: &str = "$ demo 1 --machines 1
none empty Done
vertices 20000 edges 200000 machines 1
rounds 7 reads 152912
table 634a3a45d0a8924332de0d3d640fa8a19ec2158e0af272dc842c9caade892b78
$ demo 1 --machines 4
none empty Done
vertices 20000 edges 200000 machines 4
rounds 7 reads 153547
table aa8bdaf5417b6f27bdff28b96f7b76d40a25999b883d25d1a9319ccbf16d5ef5
$ demo 1
none empty Done
vertices 20000 edges 200000 machines 4
rounds 7 reads 153547
table aa8bdaf5417b6f27bdff28b96f7b76d40a25999b883d25d1a9319ccbf16d5ef5
$ demo 1 --machines 64
none empty Done
vertices 20000 edges 200000 machines 64
rounds 7 reads 153216
table 3c39bc0cefb242c8e9ba8c7ec19da81f3169b562df073855ba9099e8d7cb642d
$ demo 2 --machines 1
none empty Done
vertices 20000 edges 200000 machines 1
rounds 7 reads 40166
table 299bce86ed0b39585250fa47dcf39ca555bd6fc54a2bebfd1084bf828b8a4bf3
$ demo 2 --machines 4
none empty Done
vertices 20000 edges 200000 machines 4
rounds 7 reads 40523
table 683a605267b1c6b735f3b2ba1b557c3b55aa6dd8452756c5f73e47c3ae8496e6
$ demo --machines=4 2
none empty Done
vertices 20000 edges 200000 machines 4
rounds 7 reads 40523
table 683a605267b1c6b735f3b2ba1b557c3b55aa6dd8452756c5f73e47c3ae8496e6
$ demo 2 --machines 64
none empty Done
vertices 20000 edges 200000 machines 64
rounds 7 reads 40277
table 4bf5b4519e4944818eca782fe225c23dd36a986edd79cf95322e28d09f2a4fb2
$ demo 18446744073709551615 --machines 1
none empty Done
vertices 20000 edges 200000 machines 1
rounds 7 reads 33265
table 6d331d2781e80d68f2fc42ded104881bae214fc5939c2f172c04f5123fb47d1c
$ demo 18446744073709551615 --machines 4
none empty Done
vertices 20000 edges 200000 machines 4
rounds 7 reads 33290
table b8fe0ceb759c59c32eb311c3d7e7f7f4d965a2f6bba63211b7a0c2907134f8aa
$ demo 18446744073709551615
none empty Done
vertices 20000 edges 200000 machines 4
rounds 7 reads 33290
table b8fe0ceb759c59c32eb311c3d7e7f7f4d965a2f6bba63211b7a0c2907134f8aa
$ demo 18446744073709551615 --machines 64
none empty Done
vertices 20000 edges 200000 machines 64
rounds 7 reads 33117
table 15b8eae1d77acf75c04179717f00b8e8f7c6d77debba60ebae7862d0bcf325a7
";

// A feed in memory.
ghost use Rattle.std.specs.Prelude.{◌≡◌, [], ◌≤◌, length, if◌then◌else◌};

use crate::feed::Feed;
use arrayvec::ArrayVec;
use std::marker::Model;
use vert_base::{Neighbour, Row};

/// A feed that gives its list.
#[derive(Drop)]
pub struct ListFeed {
    list: Vec<(Neighbour, Row)>,
    count: usize,
}

impl Model for ListFeed {
    ghost use Rattle.std.specs.Prelude.{take, drop};
    ghost use Rattle.symple_face.specs.Given.{Given};

    ghost Value = { Given };

    ghost view = { λ f. record {
      given = take f.count f.list.items;
      left = drop f.count f.list.items;
    } };
}

impl ListFeed {
    pub fn new(list: Vec<(Neighbour, Row)>) -> ListFeed
        ensures { result ≡ record { given = []; left = list.items } }
    {
        ListFeed { list, count: 0 }
    }
}

// Writes the words of one row into another.
fn copy_words(from: &ArrayVec<i64, 16>, into: &mut ArrayVec<i64, 16>)
    ensures { into.new.items ≡ from.now.items }
{
    into.clear();
    for word in from.as_slice() {
        into.push(*word);
    }
}

impl Feed for ListFeed {
    ghost given = { λ feed. feed.given };

    ghost left = { λ feed. feed.left };

    fn next(&mut self, row: &mut Row) -> Option<Neighbour> {
        match self.list.get(self.count) {
            Some(pair) => {
                copy_words(&pair.1.words, &mut row.words);
                row.active = pair.1.active;
                self.count += 1;
                Some(pair.0)
            }
            None => None,
        }
    }
}

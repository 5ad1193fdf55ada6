ghost use Rattle.std.specs.Prelude.{◌≡◌, ◌<◌, length};
ghost use Rattle.arrayvec.specs.ArrayVec.{with_item};
ghost use Rattle.vert_eval.specs.Values.{word_at};

use arrayvec::ArrayVec;

/// Writes the item at a place that there is.
#[inline]
pub fn put<T: Drop, const CAP: usize>(items: &mut ArrayVec<T, CAP>, at: u8, item: T)
    requires { at < length items.old.items }
    ensures { items.new ≡ with_item items.old at item }
{
    items[usize::from(at)] = item;
}

/// The word at a place that there is.
#[inline]
pub fn word_in<const CAP: usize>(words: &ArrayVec<i64, CAP>, at: u8) -> i64
    requires { at < length words.now.items }
    ensures word { result ≡ word_at words.now.items at }
    ensures within { at < CAP }
{
    words[usize::from(at)]
}

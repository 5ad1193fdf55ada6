ghost use Rattle.std.specs.Prelude.{◌≡◌};
ghost use Rattle.vert_base.specs.declared.value.Combine.TheVariants.{Sum};
ghost use Rattle.slot_merge.specs.Combine.{combined_of};
ghost use Rattle.slot_merge.specs.Mergeable.{CanMerge};
ghost use Rattle.slot_merge.specs.Partials.{empty_partial, started, with_word, with_partial};

use arrayvec::ArrayVec;
use vert_base::Combine;

/// What was emitted to one slot, combined. `key` is that of the value of a `First`; no other kind
/// has keys, and keeps 0.
#[derive(Clone, Copy, Debug, PartialEq, Eq)]
pub struct Partial {
    pub op: Combine,
    pub key: u32,
    pub value: Option<i64>,
}

/// The partials of a program's slots, in the order of the slots.
#[derive(Drop)]
pub struct Emits {
    pub slots: ArrayVec<Partial, 8>,
}

impl Default for Partial {
    fn default() -> Partial
        ensures sum { result ≡ empty_partial Sum }
    {
        Partial::new(Combine::Sum)
    }
}

impl Partial {
    /// The partial of a slot to which nothing was emitted.
    pub fn new(op: Combine) -> Partial
        ensures empty { result ≡ empty_partial op }
    {
        Partial {
            op,
            key: 0,
            value: None,
        }
    }

    /// Combines one more value. `First` keeps the value of the least key, and of equal keys the
    /// earlier one.
    #[inline]
    pub fn add(&mut self, key: u32, value: i64)
        ensures word { self.new ≡ with_word key value self.old }
    {
        let Some(held) = self.value else {
            self.begin(key, value);
            return;
        };
        match self.op {
            Combine::First => {
                if key < self.key {
                    self.begin(key, value);
                }
            }
            op => self.value = Some(combine(op, held, value)),
        }
    }

    /// Combines what another partial of the same slot holds.
    pub fn merge(&mut self, other: &Partial)
        requires alike { CanMerge self.old other.now }
        ensures partial { self.new ≡ with_partial other.now self.old }
    {
        if let Some(value) = other.value {
            self.add(other.key, value);
        }
    }

    fn begin(&mut self, key: u32, value: i64)
        ensures { self.new ≡ started key value self.old }
    {
        if let Combine::First = self.op {
            self.key = key;
        }
        self.value = Some(value);
    }
}

fn combine(op: Combine, held: i64, value: i64) -> i64
    ensures { result ≡ combined_of op held value }
{
    match op {
        Combine::Min => held.min(value),
        Combine::Max => held.max(value),
        Combine::Sum => held.wrapping_add(value),
        Combine::First => held,
    }
}

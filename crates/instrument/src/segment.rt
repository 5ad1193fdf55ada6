ghost use Rattle.std.specs.Prelude.{IsTrue, ◌≡◌, ◌≤◌, ◌<◌, ◌+◌, ◌++◌, All, FitsSigned, length};
ghost use Rattle.std.specs.Option.{option_copied};
ghost use Rattle.std.specs.Int.{w64};
ghost use Rattle.vert_tree.specs.Places.{lets_in, lets_placed};
ghost use Rattle.slot_merge.specs.Combine.{neutral};
ghost use Rattle.vert_eval.specs.Rounds.{with_lets};
ghost use Rattle.vert_eval.specs.Values.{CanDraw, counts_of};
ghost use Rattle.instrument.specs.Segments.{carried_word, left_after, only_lets, received_over, received_word, reset_word, with_neutral, with_received};

use crate::split::SplitLoop;
use arrayvec::ArrayVec;
use carry_analysis::Class;
use vert_base::Combine;
use vert_eval::{Env, eval};
use vert_tree::{Decl, Dense, Typed};

impl SplitLoop {
    ghost use Rattle.std.specs.Prelude.{Some, option_map};
    ghost use Rattle.instrument.specs.Loops.{loop_split};
    ghost use Rattle.instrument.specs.Segments.{begun, given, own_words};

    /// Begins a segment of the loop of this program. The lets replace the locals that the environment
    /// had; their own values are words of 64 bits, whatever comes over them.
    pub fn begin(&self, program: &Typed, env: &mut Env, received: Option<&[i64]>)
        requires split { option_map loop_split program.now.program.dense ≡ Some self.now }
        requires names { IsTrue (lets_placed (record (counts_of env.old) { locals = 0 })
            (lets_in program.now.program.dense)) }
        requires draws { CanDraw env.old }
        ensures begun { env.new ≡ begun self.now (lets_in program.now.program.dense)
            (option_copied received.entry) env.old }
        ensures own { All (FitsSigned w64) (own_words (lets_in program.now.program.dense) env.old) }
        ensures counts { counts_of env.new
            ≡ record (counts_of env.old) { locals = length self.now.classes.locals.items } }
        ensures draws { CanDraw env.new }
    {
        begin_lets(&program.program.dense, env);
        begin_words(self.classes.locals.as_slice(), received, &mut env.locals);
        env.touched = 0;
    }

    /// Leaves the words of the carried lets in `into`, in order, and nothing else.
    pub fn give(&self, env: &Env, into: &mut ArrayVec<i64, 8>)
        requires { length env.now.locals.items ≡ length self.now.classes.locals.items }
        ensures { into.new.items ≡ given self.now env.now }
    {
        into.clear();
        for (i, class) in self.classes.locals.as_slice().iter().enumerate() {
            push_carried(into, *class, env.locals[i]);
        }
    }
}

// A word behind those that are handed on, where it is handed on too.
fn push_carried(into: &mut ArrayVec<i64, 8>, class: Class, word: i64)
    requires { length into.old.items < 8 }
    ensures items { into.new.items ≡ into.old.items ++ carried_word class word }
    ensures few { length into.new.items ≤ length into.old.items + 1 }
{
    match class {
        Class::Carried => into.push(word),
        Class::Constant | Class::Reduced(_) => {}
    }
}

// The lets of a block in the place of the locals that there are.
fn begin_lets(dense: &Option<Dense>, env: &mut Env)
    requires room { length (lets_in dense.now) ≤ 8 }
    requires names { IsTrue (lets_placed (record (counts_of env.old) { locals = 0 })
        (lets_in dense.now)) }
    requires draws { CanDraw env.old }
    ensures lets { env.new ≡ only_lets (lets_in dense.now) env.old }
    ensures counts { counts_of env.new
        ≡ record (counts_of env.old) { locals = length (lets_in dense.now) } }
    ensures draws { CanDraw env.new }
    ensures words { All (FitsSigned w64) env.new.locals.items }
{
    env.locals.clear();
    if let Some(dense) = dense {
        add_lets(&dense.lets, env);
    }
}

// The lets behind the locals that there are.
fn add_lets(lets: &[Decl], env: &mut Env)
    requires room { length env.old.locals.items + length lets.now ≤ 8 }
    requires names { IsTrue (lets_placed (counts_of env.old) lets.now) }
    requires draws { CanDraw env.old }
    requires before { All (FitsSigned w64) env.old.locals.items }
    ensures lets { env.new ≡ with_lets lets.now env.old }
    ensures counts { counts_of env.new
        ≡ record (counts_of env.old) { locals = length env.old.locals.items + length lets.now } }
    ensures draws { CanDraw env.new }
    ensures words { All (FitsSigned w64) env.new.locals.items }
{
    for decl in lets {
        let word = eval(&decl.value, env);
        env.locals.push(word);
    }
}

// Writes the words with which a segment begins over those that the lets have of their own.
fn begin_words(classes: &[Class], received: Option<&[i64]>, words: &mut ArrayVec<i64, 8>)
    requires each { length classes.now ≡ length words.old.items }
    ensures items { words.new.items
        ≡ with_neutral classes.now (with_received classes.now (option_copied received.entry)
        words.old.items) }
    ensures count { length words.new.items ≡ length words.old.items }
{
    if let Some(received) = received {
        receive(classes, received, words);
    }
    reset(classes, words);
}

// Writes the words received over the carried ones.
fn receive(classes: &[Class], received: &[i64], words: &mut ArrayVec<i64, 8>)
    requires each { length classes.now ≡ length words.old.items }
    ensures items { words.new.items ≡ received_over classes.now received.now words.old.items }
    ensures count { length words.new.items ≡ length words.old.items }
{
    let mut left = received;
    for (i, class) in classes.iter().enumerate() {
        let (word, rest) = received_word(*class, left, words[i]);
        words[i] = word;
        left = rest;
    }
}

// The word of a let, and the words received for the lets behind it.
fn received_word(class: Class, received: &[i64], own: i64) -> (i64, &[i64])
    ensures word { result.0 ≡ received_word class received.now own }
    ensures left { result.1.now ≡ left_after class received.now }
{
    match (class, received) {
        (Class::Carried, [first, rest @ ..]) => (*first, rest),
        _ => (own, received),
    }
}

// Writes neutral values over the reduced words.
fn reset(classes: &[Class], words: &mut ArrayVec<i64, 8>)
    requires each { length classes.now ≡ length words.old.items }
    ensures items { words.new.items ≡ with_neutral classes.now words.old.items }
    ensures count { length words.new.items ≡ length words.old.items }
{
    for (i, class) in classes.iter().enumerate() {
        words[i] = reset_word(*class, words[i]);
    }
}

// A word as a segment begins with it.
fn reset_word(class: Class, word: i64) -> i64
    ensures { result ≡ reset_word class word }
{
    match class {
        Class::Reduced(op) => neutral(op),
        Class::Constant | Class::Carried => word,
    }
}

fn neutral(op: Combine) -> i64
    ensures { result ≡ neutral op }
{
    match op {
        Combine::Sum | Combine::First => 0,
        Combine::Min => i64::MAX,
        Combine::Max => i64::MIN,
    }
}

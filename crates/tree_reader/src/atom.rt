ghost use Rattle.std.specs.Prelude.{◌≡◌, true, false, List, Some, None, if◌then◌else◌, IfOk, MatchOption};
ghost use Rattle.std.specs.declared.alloc.Global.{Global};
ghost use Rattle.std.specs.declared.string.String.{String};
ghost use Rattle.vert_base.specs.declared.text.Span.{Span};
ghost use Rattle.vert_grammar.specs.Reading.{atom_of, begins, draw_at, is_atom, kind, named_at, other_at, single};
ghost use Rattle.vert_grammar.specs.Signs.{builtin_of, is_builtin, is_truth, is_word, word_in};
ghost use Rattle.tree_reader.specs.Parts.{is_other_word, plain_at};
ghost use Rattle.vert_lex.specs.declared.words.TheConstants.{TRUE};
ghost use Rattle.vert_lex.specs.Tokens.{Reserved};
ghost use Rattle.tree_reader.specs.Signs.{Gives, plain, plain_kind};
ghost use Rattle.vert_tree.specs.declared.expression.Node.TheVariants as nodes;
ghost use Rattle.vert_tree.specs.Trees.{depth};
ghost use Rattle.vert_tree.specs.Views.{view, view_node};

use crate::fault::{Halt, Why};
use crate::reader::Reader;
use crate::sign::{Sign, SignKind};
use vert_lex::{marks, words};
use vert_tree::{Builtin, Expr, Node};

/// The value that a word stands for, where it stands for one.
#[tactic(auto, unfolding(vert_grammar::specs::Signs::builtin_of))]
fn builtin(word: u8) -> Option<Builtin>
    ensures { result ≡ (if is_builtin (Reserved word) then Some (builtin_of word) else None) }
{
    match word {
        words::ID => Some(Builtin::Id),
        words::N => Some(Builtin::Count),
        words::ROUND => Some(Builtin::Round),
        words::INDEG => Some(Builtin::InDeg),
        words::OUTDEG => Some(Builtin::OutDeg),
        words::ACTIVE => Some(Builtin::Active),
        words::W => Some(Builtin::Weight),
        _ => None,
    }
}

/// The value that a word stands for, if it may stand behind `u.`.
fn other_builtin(word: u8) -> Option<Builtin>
    ensures { result ≡ (if is_other_word (Reserved word) then Some (builtin_of word) else None) }
{
    match builtin(word)? {
        Builtin::Count | Builtin::Round | Builtin::Weight => None,
        other => Some(other),
    }
}

/// The node that a word is, where it stands for a value.
fn word_node(word: u8) -> Option<Node>
    ensures { result ≡ (if is_truth (Reserved word)
        then Some (nodes.Bool (is_word TRUE (Reserved word)))
        else (if is_builtin (Reserved word) then Some (nodes.Word (builtin_of word)) else None)) }
{
    match word {
        words::TRUE => Some(Node::Bool(true)),
        words::FALSE => Some(Node::Bool(false)),
        _ => Some(Node::Word(builtin(word)?)),
    }
}

/// The node that a token of one token is, where it is one.
fn atom_node(kind: SignKind) -> Option<Node>
    ensures { (names : List (String Global)) →
        MatchOption result (is_atom (plain_kind names kind) ≡ false) (λ node.
        (is_atom (plain_kind names kind) ≡ true) ×
        ((s : Span) → view_node names s node ≡ atom_of s (plain_kind names kind)) ×
        ((s : Span) → depth (view_node names s node) ≡ 1)) }
{
    match kind {
        SignKind::Number(number) => Some(Node::Int(number.value as i64)),
        SignKind::Reserved(word) => word_node(word),
        _ => None,
    }
}

impl Reader {
    /// A number, a truth value or a word that stands for a value, and what follows it.
    #[tactic(auto, unfolding(vert_grammar::specs::Reading::single))]
    fn atom<'a>(&self, tokens: &'a [Sign]) -> Result<(Expr, &'a [Sign]), Halt<'a>>
        ensures depth { IfOk result (λ x. depth (view self.now.names.items x.0) ≡ 1) }
        ensures read { Gives self.now.names.items (λ x.
            (view self.now.names.items x.0, plain self.now.names.items x.1.now)) result
            (single is_atom atom_of (plain self.now.names.items tokens.now)) }
    {
        match tokens {
            [] => Err(Halt::Fault(Why::Unexpected, tokens)),
            [t, ..] => match atom_node(t.kind) {
                Some(node) => Ok((Expr { span: t.span, node }, self.rest(tokens))),
                None => Err(Halt::Fault(Why::Unexpected, tokens)),
            },
        }
    }

    /// A name, or what is asked of its slot, and what follows it.
    #[tactic(auto, unfolding(vert_grammar::specs::Reading::named_at, vert_grammar::specs::Reading::single))]
    fn named<'a>(&self, tokens: &'a [Sign]) -> Result<(Expr, &'a [Sign]), Halt<'a>>
        ensures depth { IfOk result (λ x. depth (view self.now.names.items x.0) ≡ 1) }
        ensures read { Gives self.now.names.items (λ x.
            (view self.now.names.items x.0, plain self.now.names.items x.1.now)) result
            (named_at (plain self.now.names.items tokens.now)) }
    {
        let (name, tokens) = self.name(tokens)?;
        let span = name.span;
        if !self.begins_mark(marks::DOT, tokens) {
            let node = Node::Name(name);
            return Ok((Expr { span, node }, tokens));
        }
        let (_, tokens) = self.mark(marks::DOT, tokens)?;
        if self.begins_word(words::GOT, tokens) {
            let node = Node::Got(name);
            return Ok((Expr { span, node }, self.rest(tokens)));
        }
        if self.begins_word(words::VALUE, tokens) {
            let node = Node::Value(name);
            return Ok((Expr { span, node }, self.rest(tokens)));
        }
        Err(Halt::Fault(Why::Unexpected, tokens))
    }
    /// What `u.` asks of a neighbour, and what follows it.
    #[tactic(auto, unfolding(vert_grammar::specs::Reading::other_at, vert_grammar::specs::Reading::single))]
    fn other<'a>(&self, tokens: &'a [Sign]) -> Result<(Expr, &'a [Sign]), Halt<'a>>
        ensures depth { IfOk result (λ x. depth (view self.now.names.items x.0) ≡ 1) }
        ensures read { Gives self.now.names.items (λ x.
            (view self.now.names.items x.0, plain self.now.names.items x.1.now)) result
            (other_at (plain self.now.names.items tokens.now)) }
    {
        let (span, tokens) = self.word(words::U, tokens)?;
        let (_, tokens) = self.mark(marks::DOT, tokens)?;
        if self.begins_name(tokens) {
            let (name, tokens) = self.name(tokens)?;
            let node = Node::OtherField(name);
            return Ok((Expr { span, node }, tokens));
        }
        match self.other_word(tokens) {
            Some(word) => {
                let node = Node::OtherWord(word);
                Ok((Expr { span, node }, self.rest(tokens)))
            }
            None => Err(Halt::Fault(Why::Unexpected, tokens)),
        }
    }

    /// The word that the first token is, if it may stand behind `u.`.
    fn other_word(&self, tokens: &[Sign]) -> Option<Builtin>
        ensures { result ≡ (if begins is_other_word (plain self.now.names.items tokens.now)
            then Some (builtin_of (word_in (kind (plain self.now.names.items tokens.now))))
            else None) }
    {
        match tokens {
            [] => None,
            [t, ..] => match t.kind {
                SignKind::Reserved(word) => other_builtin(word),
                _ => None,
            },
        }
    }

    /// A draw, and what follows it.
    #[tactic(auto, unfolding(vert_grammar::specs::Reading::draw_at))]
    fn draw<'a>(&self, tokens: &'a [Sign]) -> Result<(Expr, &'a [Sign]), Halt<'a>>
        ensures depth { IfOk result (λ x. depth (view self.now.names.items x.0) ≡ 1) }
        ensures read { Gives self.now.names.items (λ x.
            (view self.now.names.items x.0, plain self.now.names.items x.1.now)) result
            (draw_at (plain self.now.names.items tokens.now)) }
    {
        let (span, tokens) = self.word(words::DRAW, tokens)?;
        let (_, tokens) = self.mark(marks::LEFT_PARENTHESIS, tokens)?;
        let (at, number, tokens) = self.number(tokens)?;
        let (_, tokens) = self.mark(marks::RIGHT_PARENTHESIS, tokens)?;
        let node = Node::Draw(at, number.value);
        Ok((Expr { span, node }, tokens))
    }

    /// An expression that no other is part of, and what follows it.
    pub(crate) fn plain<'a>(&self, tokens: &'a [Sign]) -> Result<(Expr, &'a [Sign]), Halt<'a>>
        ensures depth { IfOk result (λ x. depth (view self.now.names.items x.0) ≡ 1) }
        ensures read { Gives self.now.names.items (λ x.
            (view self.now.names.items x.0, plain self.now.names.items x.1.now)) result
            (plain_at (plain self.now.names.items tokens.now)) }
    {
        if self.begins_name(tokens) {
            return self.named(tokens);
        }
        if self.begins_word(words::U, tokens) {
            return self.other(tokens);
        }
        if self.begins_word(words::DRAW, tokens) {
            return self.draw(tokens);
        }
        self.atom(tokens)
    }
}

ghost use Rattle.std.specs.Prelude.{◌≡◌, ℕ};
ghost use Rattle.vert_base.specs.declared.text.Span.{Span};
ghost use Rattle.vert_grammar.specs.Reading.{begins, kind, place, rest, single, the_mark, the_word, name_at, layer_ahead};
ghost use Rattle.vert_grammar.specs.Signs.{is_mark, is_name, is_number, is_word, layer_at, number_in, operator, operator_of};
ghost use Rattle.tree_reader.specs.Signs.{Gives, plain};
ghost use Rattle.vert_tree.specs.Views.{view_name};

use crate::fault::{Halt, Why};
use crate::sign::{Sign, SignKind, Small};
use std::alloc::Global;
use vert_base::Span;
use vert_lex::marks;
use vert_tree::{BinOp, Ident, What};

/// The place of no token.
const NOWHERE: Span = Span {
    at: 0,
    line: 0,
    column: 0,
};

/// Reads numbered tokens from the left. Each call returns what it read and the tokens behind it.
#[derive(Drop)]
pub struct Reader {
    pub alloc: Global,
    /// The texts of the names.
    pub names: Vec<String>,
}

impl Reader {
    /// Whether the first token is this mark.
    pub(crate) fn begins_mark(&self, mark: u8, tokens: &[Sign]) -> bool
        ensures { result ≡ begins (is_mark mark) (plain self.now.names.items tokens.now) }
    {
        match tokens {
            [] => false,
            [t, ..] => match t.kind {
                SignKind::Mark(m) => m == mark,
                _ => false,
            },
        }
    }

    /// Whether the first token is this word.
    pub(crate) fn begins_word(&self, word: u8, tokens: &[Sign]) -> bool
        ensures { result ≡ begins (is_word word) (plain self.now.names.items tokens.now) }
    {
        match tokens {
            [] => false,
            [t, ..] => match t.kind {
                SignKind::Reserved(m) => m == word,
                _ => false,
            },
        }
    }

    /// Whether the first token is a name.
    pub(crate) fn begins_name(&self, tokens: &[Sign]) -> bool
        ensures { result ≡ begins is_name (plain self.now.names.items tokens.now) }
    {
        match tokens {
            [] => false,
            [t, ..] => matches!(t.kind, SignKind::Name(_)),
        }
    }

    /// Where the first token stands.
    pub(crate) fn place(&self, tokens: &[Sign]) -> Span
        ensures { result ≡ place (plain self.now.names.items tokens.now) }
    {
        match tokens {
            [] => NOWHERE,
            [t, ..] => t.span,
        }
    }

    /// What follows the first token.
    pub(crate) fn rest<'a>(&self, tokens: &'a [Sign]) -> &'a [Sign]
        ensures { plain self.now.names.items result.now
            ≡ rest (plain self.now.names.items tokens.now) }
    {
        match tokens {
            [] => tokens,
            [_, rest @ ..] => rest,
        }
    }

    /// The place of a mark, and what follows it.
    #[tactic(auto, unfolding(vert_grammar::specs::Reading::single))]
    pub(crate) fn mark<'a>(
        &self,
        mark: u8,
        tokens: &'a [Sign],
    ) -> Result<(Span, &'a [Sign]), Halt<'a>>
        ensures { Gives self.now.names.items (λ x. (x.0, plain self.now.names.items x.1.now))
            result (the_mark mark (plain self.now.names.items tokens.now)) }
    {
        if !self.begins_mark(mark, tokens) {
            return Err(Halt::Fault(Why::Unexpected, tokens));
        }
        Ok((self.place(tokens), self.rest(tokens)))
    }

    /// The place of a word, and what follows it.
    #[tactic(auto, unfolding(vert_grammar::specs::Reading::single))]
    pub(crate) fn word<'a>(
        &self,
        word: u8,
        tokens: &'a [Sign],
    ) -> Result<(Span, &'a [Sign]), Halt<'a>>
        ensures { Gives self.now.names.items (λ x. (x.0, plain self.now.names.items x.1.now))
            result (the_word word (plain self.now.names.items tokens.now)) }
    {
        if !self.begins_word(word, tokens) {
            return Err(Halt::Fault(Why::Unexpected, tokens));
        }
        Ok((self.place(tokens), self.rest(tokens)))
    }

    /// A name, and what follows it.
    #[tactic(auto, unfolding(vert_grammar::specs::Reading::single))]
    pub(crate) fn name<'a>(&self, tokens: &'a [Sign]) -> Result<(Ident, &'a [Sign]), Halt<'a>>
        ensures { Gives self.now.names.items (λ x.
            (view_name self.now.names.items x.0, plain self.now.names.items x.1.now)) result
            (name_at (plain self.now.names.items tokens.now)) }
    {
        match tokens {
            [] => Err(Halt::Fault(Why::Unexpected, tokens)),
            [t, ..] => match t.kind {
                SignKind::Name(name) => Ok((
                    Ident {
                        span: t.span,
                        name,
                        what: What::Unread,
                    },
                    self.rest(tokens),
                )),
                _ => Err(Halt::Fault(Why::Unexpected, tokens)),
            },
        }
    }

    /// A number with its place, and what follows it.
    #[tactic(auto, unfolding(vert_grammar::specs::Reading::single))]
    pub(crate) fn number<'a>(
        &self,
        tokens: &'a [Sign],
    ) -> Result<(Span, Small, &'a [Sign]), Halt<'a>>
        ensures { Gives self.now.names.items (λ x.
            ((x.0, x.1.value), plain self.now.names.items x.2.now)) result
            (single {A = Span × ℕ} is_number (λ s k. (s, number_in k))
            (plain self.now.names.items tokens.now)) }
    {
        match tokens {
            [] => Err(Halt::Fault(Why::Unexpected, tokens)),
            [t, ..] => match t.kind {
                SignKind::Number(number) => Ok((t.span, number, self.rest(tokens))),
                _ => Err(Halt::Fault(Why::Unexpected, tokens)),
            },
        }
    }

    /// The operator that the first token is, where it is one.
    pub(crate) fn operator(&self, tokens: &[Sign]) -> BinOp
        ensures { result ≡ operator (kind (plain self.now.names.items tokens.now)) }
    {
        match tokens {
            [] => operator_of(0),
            [t, ..] => match t.kind {
                SignKind::Mark(mark) => operator_of(mark),
                _ => operator_of(0),
            },
        }
    }

    /// To which layer the first token takes an expression on.
    pub(crate) fn layer_ahead(&self, tokens: &[Sign]) -> u8
        ensures { result ≡ layer_ahead (plain self.now.names.items tokens.now) }
    {
        match tokens {
            [] => 7,
            [t, ..] => match t.kind {
                SignKind::Mark(mark) => layer_at(mark),
                _ => 7,
            },
        }
    }
}

/// The layer to which a mark takes an expression on.
#[tactic(auto, unfolding(vert_grammar::specs::Signs::layer_at))]
fn layer_at(mark: u8) -> u8
    ensures { result ≡ layer_at mark }
{
    if mark == marks::DOT {
        0
    } else if mark < marks::EQUAL {
        7
    } else if mark <= marks::AT_LEAST {
        3
    } else if mark <= marks::MINUS {
        2
    } else if mark <= marks::PERCENT {
        1
    } else if mark == marks::AND {
        4
    } else if mark == marks::OR {
        5
    } else if mark == marks::QUESTION {
        6
    } else {
        7
    }
}

/// The operator of a mark, where it is one.
#[tactic(auto, unfolding(vert_grammar::specs::Signs::operator_of))]
fn operator_of(mark: u8) -> BinOp
    ensures { result ≡ operator_of mark }
{
    match mark {
        marks::PLUS => BinOp::Add,
        marks::MINUS => BinOp::Sub,
        marks::STAR => BinOp::Mul,
        marks::SLASH => BinOp::Div,
        marks::PERCENT => BinOp::Rem,
        marks::EQUAL => BinOp::Eq,
        marks::NOT_EQUAL => BinOp::Ne,
        marks::LESS => BinOp::Lt,
        marks::AT_MOST => BinOp::Le,
        marks::GREATER => BinOp::Gt,
        marks::AT_LEAST => BinOp::Ge,
        marks::AND => BinOp::And,
        _ => BinOp::Or,
    }
}

ghost use Rattle.std.specs.Prelude.{◌≡◌, ◌+◌, ◌<◌, ◌≤◌, ◌&&◌, ◌==◌, max, List, IfOk};
ghost use Rattle.std.specs.declared.alloc.Global.{Global};
ghost use Rattle.std.specs.declared.string.String.{String};
ghost use Rattle.vert_grammar.specs.Reading.{grouped, is_comparison, node, prefixed, tree_at, two_of};
ghost use Rattle.tree_reader.specs.Parts.{pair_at};
ghost use Rattle.tree_reader.specs.Signs.{Gives, plain};
ghost use Rattle.vert_tree.specs.Trees.{Greatest, Group, Least, Negative, Not, depth};
ghost use Rattle.vert_tree.specs.Views.{view};

use crate::fault::{Halt, Why};
use crate::reader::Reader;
use crate::sign::Sign;
use vert_lex::{marks, words};
use vert_tree::{BinOp, Expr, Node};

/// The layer of comparisons, which don't chain.
const COMPARISONS: u8 = 3;

/// The larger depth.
fn deeper(left: u8, right: u8) -> u8
    ensures { result ≡ max left right }
{
    if left < right { right } else { left }
}

/// Whether an expression is a comparison.
fn is_comparison(expr: &Expr) -> bool
    ensures { (names : List (String Global)) → result ≡ is_comparison (view names expr.now) }
{
    match &expr.node {
        Node::Binary(op, _, _) => matches!(
            op,
            BinOp::Eq | BinOp::Ne | BinOp::Lt | BinOp::Le | BinOp::Gt | BinOp::Ge
        ),
        _ => false,
    }
}

impl Reader {
    /// Whether an operator of this layer would have a comparison on its left that it may not have.
    fn chains_comparison(&self, layer: u8, left: &Expr) -> bool
        ensures { result ≡ (layer == 3 && is_comparison (view self.now.names.items left.now)) }
    {
        layer == COMPARISONS && is_comparison(left)
    }

    /// An expression, how deep it is, and what follows it. So many nodes may be nested inside.
    #[cycle(parser)]
    #[tactic(auto, using(crate::proofs::Steps::choice_step, crate::proofs::Steps::again), unfolding(vert_grammar::specs::Reading::choice))]
    pub(crate) fn expression<'a>(
        &self,
        room: u8,
        tokens: &'a [Sign],
    ) -> Result<(Expr, u8, &'a [Sign]), Halt<'a>>
        requires { room < 255 }
        ensures read { Gives self.now.names.items (λ x.
            (view self.now.names.items x.0, plain self.now.names.items x.2.now)) result
            (tree_at (room + 1) 6 (plain self.now.names.items tokens.now)) }
        ensures depth { IfOk result (λ x. x.1 ≡ depth (view self.now.names.items x.0)) }
        ensures fits { IfOk result (λ x. x.1 ≤ room + 1) }
    {
        let (test, depth, tokens) = self.binary(room, 5, tokens)?;
        if !self.begins_mark(marks::QUESTION, tokens) {
            return Ok((test, depth, tokens));
        }
        if room < depth {
            return Err(Halt::Fault(Why::TooDeep, tokens));
        }
        let (held, held_depth, tokens) = self.expression(room - 1, self.rest(tokens))?;
        let (_, tokens) = self.mark(marks::COLON, tokens)?;
        let (otherwise, otherwise_depth, tokens) = self.expression(room - 1, tokens)?;
        let depth = 1 + deeper(depth, deeper(held_depth, otherwise_depth));
        Ok((self.make_choice(test, held, otherwise)?, depth, tokens))
    }

    /// An expression of a layer, how deep it is, and what follows it.
    #[cycle(parser)]
    fn binary<'a>(
        &self,
        room: u8,
        layer: u8,
        tokens: &'a [Sign],
    ) -> Result<(Expr, u8, &'a [Sign]), Halt<'a>>
        requires room { room < 255 }
        requires layer { layer ≤ 5 }
        ensures read { Gives self.now.names.items (λ x.
            (view self.now.names.items x.0, plain self.now.names.items x.2.now)) result
            (tree_at (room + 1) layer (plain self.now.names.items tokens.now)) }
        ensures depth { IfOk result (λ x. x.1 ≡ depth (view self.now.names.items x.0)) }
        ensures fits { IfOk result (λ x. x.1 ≤ room + 1) }
    {
        if layer == 0 {
            return self.unary(room, tokens);
        }
        let (mut left, mut depth, mut tokens) = self.binary(room, layer - 1, tokens)?;
        'chain: while self.layer_ahead(tokens) == layer {
            if self.chains_comparison(layer, &left) {
                return Err(Halt::Fault(Why::Unexpected, tokens));
            }
            if room < depth {
                return Err(Halt::Fault(Why::TooDeep, tokens));
            }
            let op = self.operator(tokens);
            let (right, right_depth, after) = self.binary(room - 1, layer - 1, self.rest(tokens))?;
            left = self.make_pair(op, left, right)?;
            depth = 1 + deeper(depth, right_depth);
            tokens = after;
        }
        Ok((left, depth, tokens))
    }

    /// What begins with one token, how deep it is, and what follows it.
    #[cycle(parser)]
    #[tactic(auto, using(crate::proofs::Steps::unary_step), unfolding(vert_grammar::specs::Reading::unary))]
    fn unary<'a>(&self, room: u8, tokens: &'a [Sign]) -> Result<(Expr, u8, &'a [Sign]), Halt<'a>>
        requires { room < 255 }
        ensures read { Gives self.now.names.items (λ x.
            (view self.now.names.items x.0, plain self.now.names.items x.2.now)) result
            (tree_at (room + 1) 0 (plain self.now.names.items tokens.now)) }
        ensures depth { IfOk result (λ x. x.1 ≡ depth (view self.now.names.items x.0)) }
        ensures fits { IfOk result (λ x. x.1 ≤ room + 1) }
    {
        let (expr, depth, tokens) = self.prefixed(room, tokens)?;
        if self.begins_mark(marks::DOT, tokens) {
            return Err(Halt::Fault(Why::Unexpected, tokens));
        }
        Ok((expr, depth, tokens))
    }

    /// The same without a look at what follows.
    #[cycle(parser)]
    #[tactic(auto, unfolding(vert_grammar::specs::Reading::prefixed))]
    fn prefixed<'a>(&self, room: u8, tokens: &'a [Sign]) -> Result<(Expr, u8, &'a [Sign]), Halt<'a>>
        requires { room < 255 }
        ensures read { Gives self.now.names.items (λ x.
            (view self.now.names.items x.0, plain self.now.names.items x.2.now)) result
            (prefixed room (tree_at room) (plain self.now.names.items tokens.now)) }
        ensures depth { IfOk result (λ x. x.1 ≡ depth (view self.now.names.items x.0)) }
        ensures fits { IfOk result (λ x. x.1 ≤ room + 1) }
    {
        if self.begins_mark(marks::MINUS, tokens) {
            return self.negative(room, tokens);
        }
        if self.begins_mark(marks::NOT, tokens) {
            return self.not(room, tokens);
        }
        if self.begins_mark(marks::LEFT_PARENTHESIS, tokens) {
            return self.group(room, tokens);
        }
        if self.begins_word(words::MIN, tokens) {
            return self.least(room, tokens);
        }
        if self.begins_word(words::MAX, tokens) {
            return self.greatest(room, tokens);
        }
        let (expr, tokens) = self.plain(tokens)?;
        Ok((expr, 1, tokens))
    }

    #[cycle(parser)]
    #[tactic(auto, using(crate::proofs::Steps::again))]
    fn negative<'a>(&self, room: u8, tokens: &'a [Sign]) -> Result<(Expr, u8, &'a [Sign]), Halt<'a>>
        requires { room < 255 }
        ensures read { Gives self.now.names.items (λ x.
            (view self.now.names.items x.0, plain self.now.names.items x.2.now)) result
            (node room Negative (tree_at room 0) (plain self.now.names.items tokens.now)) }
        ensures depth { IfOk result (λ x. x.1 ≡ depth (view self.now.names.items x.0)) }
        ensures fits { IfOk result (λ x. x.1 ≤ room + 1) }
    {
        if room == 0 {
            return Err(Halt::Fault(Why::TooDeep, tokens));
        }
        let span = self.place(tokens);
        let (inner, depth, tokens) = self.unary(room - 1, self.rest(tokens))?;
        Ok((self.make_negative(span, inner)?, depth + 1, tokens))
    }

    #[cycle(parser)]
    #[tactic(auto, using(crate::proofs::Steps::again))]
    fn not<'a>(&self, room: u8, tokens: &'a [Sign]) -> Result<(Expr, u8, &'a [Sign]), Halt<'a>>
        requires { room < 255 }
        ensures read { Gives self.now.names.items (λ x.
            (view self.now.names.items x.0, plain self.now.names.items x.2.now)) result
            (node room Not (tree_at room 0) (plain self.now.names.items tokens.now)) }
        ensures depth { IfOk result (λ x. x.1 ≡ depth (view self.now.names.items x.0)) }
        ensures fits { IfOk result (λ x. x.1 ≤ room + 1) }
    {
        if room == 0 {
            return Err(Halt::Fault(Why::TooDeep, tokens));
        }
        let span = self.place(tokens);
        let (inner, depth, tokens) = self.unary(room - 1, self.rest(tokens))?;
        Ok((self.make_not(span, inner)?, depth + 1, tokens))
    }

    #[cycle(parser)]
    #[tactic(auto, using(crate::proofs::Steps::again))]
    fn group<'a>(&self, room: u8, tokens: &'a [Sign]) -> Result<(Expr, u8, &'a [Sign]), Halt<'a>>
        requires { room < 255 }
        ensures read { Gives self.now.names.items (λ x.
            (view self.now.names.items x.0, plain self.now.names.items x.2.now)) result
            (node room (λ s x. Group s x.0) (grouped (tree_at room))
            (plain self.now.names.items tokens.now)) }
        ensures depth { IfOk result (λ x. x.1 ≡ depth (view self.now.names.items x.0)) }
        ensures fits { IfOk result (λ x. x.1 ≤ room + 1) }
    {
        if room == 0 {
            return Err(Halt::Fault(Why::TooDeep, tokens));
        }
        let span = self.place(tokens);
        let (inner, depth, tokens) = self.expression(room - 1, self.rest(tokens))?;
        let (_, tokens) = self.mark(marks::RIGHT_PARENTHESIS, tokens)?;
        Ok((self.make_group(span, inner)?, depth + 1, tokens))
    }

    #[cycle(parser)]
    #[tactic(auto, using(crate::proofs::Steps::least_by_pair))]
    fn least<'a>(&self, room: u8, tokens: &'a [Sign]) -> Result<(Expr, u8, &'a [Sign]), Halt<'a>>
        requires { room < 255 }
        ensures read { Gives self.now.names.items (λ x.
            (view self.now.names.items x.0, plain self.now.names.items x.2.now)) result
            (node room (λ s x. Least s x.1.0 x.1.1.1.0) (two_of (tree_at room))
            (plain self.now.names.items tokens.now)) }
        ensures depth { IfOk result (λ x. x.1 ≡ depth (view self.now.names.items x.0)) }
        ensures fits { IfOk result (λ x. x.1 ≤ room + 1) }
    {
        if room == 0 {
            return Err(Halt::Fault(Why::TooDeep, tokens));
        }
        let span = self.place(tokens);
        let (left, right, depth, tokens) = self.two(room, self.rest(tokens))?;
        Ok((self.make_least(span, left, right)?, depth + 1, tokens))
    }

    #[cycle(parser)]
    #[tactic(auto, using(crate::proofs::Steps::greatest_by_pair))]
    fn greatest<'a>(&self, room: u8, tokens: &'a [Sign]) -> Result<(Expr, u8, &'a [Sign]), Halt<'a>>
        requires { room < 255 }
        ensures read { Gives self.now.names.items (λ x.
            (view self.now.names.items x.0, plain self.now.names.items x.2.now)) result
            (node room (λ s x. Greatest s x.1.0 x.1.1.1.0) (two_of (tree_at room))
            (plain self.now.names.items tokens.now)) }
        ensures depth { IfOk result (λ x. x.1 ≡ depth (view self.now.names.items x.0)) }
        ensures fits { IfOk result (λ x. x.1 ≤ room + 1) }
    {
        if room == 0 {
            return Err(Halt::Fault(Why::TooDeep, tokens));
        }
        let span = self.place(tokens);
        let (left, right, depth, tokens) = self.two(room, self.rest(tokens))?;
        Ok((self.make_greatest(span, left, right)?, depth + 1, tokens))
    }

    /// Two expressions in parentheses, the depth of the deeper one, and what follows.
    #[cycle(parser)]
    #[tactic(auto, using(crate::proofs::Steps::again))]
    fn two<'a>(
        &self,
        room: u8,
        tokens: &'a [Sign],
    ) -> Result<(Expr, Expr, u8, &'a [Sign]), Halt<'a>>
        requires low { 0 < room }
        requires high { room < 255 }
        ensures read { Gives self.now.names.items (λ x. (
          (view self.now.names.items x.0, view self.now.names.items x.1),
          plain self.now.names.items x.3.now,
        )) result
            (pair_at room (plain self.now.names.items tokens.now)) }
        ensures depth { IfOk result (λ x.
            x.2 ≡ max (depth (view self.now.names.items x.0))
            (depth (view self.now.names.items x.1))) }
        ensures fits { IfOk result (λ x. x.2 ≤ room) }
    {
        let (_, tokens) = self.mark(marks::LEFT_PARENTHESIS, tokens)?;
        let (left, left_depth, tokens) = self.expression(room - 1, tokens)?;
        let (_, tokens) = self.mark(marks::COMMA, tokens)?;
        let (right, right_depth, tokens) = self.expression(room - 1, tokens)?;
        let (_, tokens) = self.mark(marks::RIGHT_PARENTHESIS, tokens)?;
        Ok((left, right, deeper(left_depth, right_depth), tokens))
    }
}

ghost use Rattle.std.specs.Prelude.{◌≡◌, ◌&&◌, List, map, option_map};
ghost use Rattle.std.specs.declared.alloc.Global.{Global};
ghost use Rattle.std.specs.declared.string.String.{String};
ghost use Rattle.vert_grammar.specs.Reading.{assign_at, begins, block_at, braced, break_at, else_of, emit_at, ended_by, goes_on, many, op_at, set_active_at, statement_at, tree_at};
ghost use Rattle.vert_grammar.specs.Signs.{is_name, is_word};
ghost use Rattle.tree_reader.specs.Parts.{branch_at};
ghost use Rattle.tree_reader.specs.Signs.{Gives, plain, plain_rights};
ghost use Rattle.vert_tree.specs.Views.{if_of, view, view_block, view_statement};

use crate::fault::{Halt, Why};
use crate::reader::Reader;
use crate::rights::Rights;
use crate::sign::{Sign, SignKind};
use vert_base::Span;
use vert_lex::{marks, words};
use vert_tree::{AssignOp, Expr, Stmt};

/// An `if`, with or without its second block.
#[tactic(auto, using(crate::proofs::Blocks::if_view))]
fn make_if(span: Span, test: Expr, held: Vec<Stmt>, otherwise: Option<Vec<Stmt>>) -> Stmt
    ensures { (names : List (String Global)) →
        view_statement names result
        ≡ if_of span (view names test) (view_block names held.items)
        (option_map (λ b. view_block names b.items) otherwise) }
{
    Stmt::If(span, test, held, otherwise)
}

impl Reader {
    /// An expression, the place of the mark behind it, and what follows. So many nodes may be nested.
    pub(crate) fn ended<'a>(
        &self,
        mark: u8,
        depth: u8,
        tokens: &'a [Sign],
    ) -> Result<(Expr, Span, &'a [Sign]), Halt<'a>>
        ensures { Gives self.now.names.items (λ x.
            ((view self.now.names.items x.0, x.1), plain self.now.names.items x.2.now)) result
            (ended_by mark depth (plain self.now.names.items tokens.now)) }
    {
        let (value, tokens) = self.nested(depth, tokens)?;
        let (span, tokens) = self.mark(mark, tokens)?;
        Ok((value, span, tokens))
    }

    /// An expression where so many nodes may be nested, and what follows it.
    #[tactic(auto, using(crate::proofs::Blocks::none_nested, crate::proofs::Steps::again))]
    fn nested<'a>(&self, depth: u8, tokens: &'a [Sign]) -> Result<(Expr, &'a [Sign]), Halt<'a>>
        ensures { Gives self.now.names.items (λ x.
            (view self.now.names.items x.0, plain self.now.names.items x.1.now)) result
            (tree_at depth 6 (plain self.now.names.items tokens.now)) }
    {
        if depth == 0 {
            return Err(Halt::Fault(Why::TooDeep, tokens));
        }
        let (expr, _, tokens) = self.expression(depth - 1, tokens)?;
        Ok((expr, tokens))
    }

    /// How an assignment changes its target, and what follows.
    #[tactic(auto, unfolding(vert_grammar::specs::Reading::op_at, vert_grammar::specs::Reading::single))]
    fn assign_op<'a>(&self, tokens: &'a [Sign]) -> Result<(AssignOp, &'a [Sign]), Halt<'a>>
        ensures { Gives self.now.names.items (λ x. (x.0, plain self.now.names.items x.1.now))
            result (op_at (plain self.now.names.items tokens.now)) }
    {
        if self.begins_word(words::MIN, tokens) {
            let (_, tokens) = self.mark(marks::ASSIGN, self.rest(tokens))?;
            return Ok((AssignOp::Least, tokens));
        }
        if self.begins_word(words::MAX, tokens) {
            let (_, tokens) = self.mark(marks::ASSIGN, self.rest(tokens))?;
            return Ok((AssignOp::Greatest, tokens));
        }
        if self.begins_mark(marks::ASSIGN, tokens) {
            return Ok((AssignOp::Set, self.rest(tokens)));
        }
        if self.begins_mark(marks::PLUS_ASSIGN, tokens) {
            return Ok((AssignOp::Add, self.rest(tokens)));
        }
        Err(Halt::Fault(Why::Unexpected, tokens))
    }

    #[tactic(auto, unfolding(vert_grammar::specs::Reading::assign_at))]
    fn assign<'a>(&self, depth: u8, tokens: &'a [Sign]) -> Result<(Stmt, &'a [Sign]), Halt<'a>>
        ensures { Gives self.now.names.items (λ x.
            (view_statement self.now.names.items x.0, plain self.now.names.items x.1.now)) result
            (assign_at depth (plain self.now.names.items tokens.now)) }
    {
        let (target, tokens) = self.name(tokens)?;
        let (op, tokens) = self.assign_op(tokens)?;
        let (value, _, tokens) = self.ended(marks::SEMICOLON, depth, tokens)?;
        Ok((Stmt::Assign(target, op, value), tokens))
    }

    #[tactic(auto, unfolding(vert_grammar::specs::Reading::set_active_at))]
    fn set_active<'a>(&self, depth: u8, tokens: &'a [Sign]) -> Result<(Stmt, &'a [Sign]), Halt<'a>>
        ensures { Gives self.now.names.items (λ x.
            (view_statement self.now.names.items x.0, plain self.now.names.items x.1.now)) result
            (set_active_at depth (plain self.now.names.items tokens.now)) }
    {
        let (span, tokens) = self.word(words::ACTIVE, tokens)?;
        let (_, tokens) = self.mark(marks::ASSIGN, tokens)?;
        let (value, _, tokens) = self.ended(marks::SEMICOLON, depth, tokens)?;
        Ok((Stmt::SetActive(span, value), tokens))
    }

    #[tactic(auto, unfolding(vert_grammar::specs::Reading::emit_at))]
    fn emit<'a>(&self, depth: u8, tokens: &'a [Sign]) -> Result<(Stmt, &'a [Sign]), Halt<'a>>
        ensures { Gives self.now.names.items (λ x.
            (view_statement self.now.names.items x.0, plain self.now.names.items x.1.now)) result
            (emit_at depth (plain self.now.names.items tokens.now)) }
    {
        let (span, tokens) = self.word(words::EMIT, tokens)?;
        let (slot, tokens) = self.name(tokens)?;
        let (value, _, tokens) = self.ended(marks::SEMICOLON, depth, tokens)?;
        Ok((Stmt::Emit(span, slot, value), tokens))
    }

    #[tactic(auto, unfolding(vert_grammar::specs::Reading::break_at))]
    fn break_<'a>(&self, tokens: &'a [Sign]) -> Result<(Stmt, &'a [Sign]), Halt<'a>>
        ensures { Gives self.now.names.items (λ x.
            (view_statement self.now.names.items x.0, plain self.now.names.items x.1.now)) result
            (break_at (plain self.now.names.items tokens.now)) }
    {
        let (span, tokens) = self.word(words::BREAK, tokens)?;
        let (_, tokens) = self.mark(marks::SEMICOLON, tokens)?;
        Ok((Stmt::Break(span), tokens))
    }

    /// Whether the first token is a name and may be one.
    fn may_name(&self, may: bool, tokens: &[Sign]) -> bool
        ensures { result ≡ begins (λ k. may && is_name k) (plain self.now.names.items tokens.now) }
    {
        match tokens {
            [] => false,
            [t, ..] => may && matches!(t.kind, SignKind::Name(_)),
        }
    }

    /// Whether the first token is this word and may be it.
    fn may_word(&self, may: bool, word: u8, tokens: &[Sign]) -> bool
        ensures { result ≡ begins (λ k. may && is_word word k)
            (plain self.now.names.items tokens.now) }
    {
        match tokens {
            [] => false,
            [t, ..] => match t.kind {
                SignKind::Reserved(m) => may && m == word,
                _ => false,
            },
        }
    }

    /// Whether a further statement stands here.
    fn goes_on(&self, tokens: &[Sign]) -> bool
        ensures { result ≡ begins goes_on (plain self.now.names.items tokens.now) }
    {
        match tokens {
            [] => false,
            [t, ..] => match t.kind {
                SignKind::Mark(m) => m != marks::RIGHT_BRACE,
                _ => true,
            },
        }
    }

    /// A statement and what follows it. So many nodes may be nested.
    #[cycle(statements)]
    #[tactic(auto, using(crate::proofs::Blocks::statement_step), unfolding(vert_grammar::specs::Reading::choose))]
    fn statement<'a>(
        &self,
        rights: Rights,
        depth: u8,
        tokens: &'a [Sign],
    ) -> Result<(Stmt, &'a [Sign]), Halt<'a>>
        ensures { Gives self.now.names.items (λ x.
            (view_statement self.now.names.items x.0, plain self.now.names.items x.1.now)) result
            (statement_at (plain_rights rights) depth (plain self.now.names.items tokens.now)) }
    {
        if self.begins_word(words::IF, tokens) {
            return self.branch(rights, depth, tokens);
        }
        if self.may_name(rights.assigns, tokens) {
            return self.assign(depth, tokens);
        }
        if self.may_word(rights.activates, words::ACTIVE, tokens) {
            return self.set_active(depth, tokens);
        }
        if self.may_word(rights.emits, words::EMIT, tokens) {
            return self.emit(depth, tokens);
        }
        if self.may_word(rights.breaks, words::BREAK, tokens) {
            return self.break_(tokens);
        }
        Err(Halt::Fault(Why::Unexpected, tokens))
    }

    /// An `if` and what follows it.
    #[cycle(statements)]
    #[tactic(auto, using(crate::proofs::Blocks::branch_step, crate::proofs::Blocks::branch_stops))]
    fn branch<'a>(
        &self,
        rights: Rights,
        depth: u8,
        tokens: &'a [Sign],
    ) -> Result<(Stmt, &'a [Sign]), Halt<'a>>
        ensures { Gives self.now.names.items (λ x.
            (view_statement self.now.names.items x.0, plain self.now.names.items x.1.now)) result
            (branch_at (plain_rights rights) depth (plain self.now.names.items tokens.now)) }
    {
        if depth < 2 {
            return Err(Halt::Fault(Why::TooDeep, tokens));
        }
        let span = self.place(tokens);
        let (test, tokens) = self.nested(depth - 1, self.rest(tokens))?;
        let (held, tokens) = self.braced(rights, depth - 1, tokens)?;
        let (otherwise, tokens) = self.otherwise(rights, depth - 1, tokens)?;
        Ok((make_if(span, test, held, otherwise), tokens))
    }

    /// The second block of an `if`, where it has one, and what follows.
    #[cycle(statements)]
    fn otherwise<'a>(
        &self,
        rights: Rights,
        depth: u8,
        tokens: &'a [Sign],
    ) -> Result<(Option<Vec<Stmt>>, &'a [Sign]), Halt<'a>>
        ensures { Gives self.now.names.items (λ x. (
          option_map (λ b. view_block self.now.names.items b.items) x.0,
          plain self.now.names.items x.1.now,
        )) result
            (else_of (statement_at (plain_rights rights) depth)
            (plain self.now.names.items tokens.now)) }
    {
        if !self.begins_word(words::ELSE, tokens) {
            return Ok((None, tokens));
        }
        let (_, tokens) = self.word(words::ELSE, tokens)?;
        let (block, tokens) = self.braced(rights, depth, tokens)?;
        Ok((Some(block), tokens))
    }

    /// The statements between braces, and what follows.
    #[cycle(statements)]
    #[tactic(auto, using(crate::proofs::Blocks::block_view))]
    fn braced<'a>(
        &self,
        rights: Rights,
        depth: u8,
        tokens: &'a [Sign],
    ) -> Result<(Vec<Stmt>, &'a [Sign]), Halt<'a>>
        ensures { Gives self.now.names.items (λ x.
            (view_block self.now.names.items x.0.items, plain self.now.names.items x.1.now)) result
            (braced (statement_at (plain_rights rights) depth)
            (plain self.now.names.items tokens.now)) }
    {
        let (_, tokens) = self.mark(marks::LEFT_BRACE, tokens)?;
        let (block, tokens) = self.statements(rights, depth, tokens)?;
        let (_, tokens) = self.mark(marks::RIGHT_BRACE, tokens)?;
        Ok((block, tokens))
    }

    /// Statements up to a brace or the end, and what follows.
    #[cycle(statements)]
    fn statements<'a>(
        &self,
        rights: Rights,
        depth: u8,
        tokens: &'a [Sign],
    ) -> Result<(Vec<Stmt>, &'a [Sign]), Halt<'a>>
        ensures { Gives self.now.names.items (λ x. (
          map (view_statement self.now.names.items) x.0.items,
          plain self.now.names.items x.1.now,
        )) result
            (many goes_on (statement_at (plain_rights rights) depth)
            (plain self.now.names.items tokens.now)) }
    {
        let mut statements = Vec::new(self.alloc);
        let mut tokens = tokens;
        'statements: while self.goes_on(tokens) {
            let (statement, after) = self.statement(rights, depth, tokens)?;
            statements.push(statement)?;
            tokens = after;
        }
        Ok((statements, tokens))
    }

    /// The statements of a block, and what follows.
    #[tactic(auto, using(crate::proofs::Blocks::block_view), unfolding(vert_grammar::specs::Reading::block_at))]
    pub(crate) fn block<'a>(
        &self,
        rights: Rights,
        depth: u8,
        tokens: &'a [Sign],
    ) -> Result<(Vec<Stmt>, &'a [Sign]), Halt<'a>>
        ensures { Gives self.now.names.items (λ x.
            (view_block self.now.names.items x.0.items, plain self.now.names.items x.1.now)) result
            (block_at (plain_rights rights) depth (plain self.now.names.items tokens.now)) }
    {
        self.statements(rights, depth, tokens)
    }
}

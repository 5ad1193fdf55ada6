ghost use Rattle.std.specs.Prelude.{◌≡◌, ℕ, [], map, option_map};
ghost use Rattle.vert_base.specs.declared.text.Span.{Span};
ghost use Rattle.vert_base.specs.declared.value.Mode.{Mode};
ghost use Rattle.vert_grammar.specs.Grammar.{limits};
ghost use Rattle.vert_grammar.specs.Reading.{all_of, block_at, blocks_at, both, dense_at, header_at, is_stop, is_version_at, maybe, names_at, program_at, single, sparse_at, start_at, stop_at, the_mark, update_at};
ghost use Rattle.vert_grammar.specs.Signs.{is_mode, is_word, mode_of, number_in};
ghost use Rattle.vert_lex.specs.declared.marks.TheConstants.{RIGHT_BRACE};
ghost use Rattle.vert_lex.specs.declared.words.TheConstants as word;
ghost use Rattle.tree_reader.specs.Parts.{later_at, loop_at};
ghost use Rattle.tree_reader.specs.Programs.{view_blocks, view_declared, view_head, view_later, view_named};
ghost use Rattle.tree_reader.specs.Signs.{Gives, plain, plain_rights};
ghost use Rattle.vert_tree.specs.Views.{view, view_block, view_dense, view_sparse};

use crate::declaration::DEPTH;
use crate::fault::{Halt, Why};
use crate::reader::Reader;
use crate::rights::{LOOP, Rights, SPARSE, TAIL, UPDATE};
use crate::sign::{Sign, SignKind};
use vert_base::limits::{FIELDS, LOCALS, SENDS};
use vert_base::{Mode, Span};
use vert_lex::{marks, words};
use vert_tree::{Decl, Dense, Expr, Program, SlotDecl, Sparse, Stmt, TotalDecl};

/// The text of the name that version 2 reads as the keyword of the stop test.
const STOP: &[u8] = b"stop";

/// What stands in front of the declarations.
#[derive(Clone, Copy)]
pub(crate) struct Head {
    version: u8,
    mode: Mode,
    mode_at: Span,
    limit: u64,
    limit_at: Span,
}

/// The declarations of a program.
#[derive(Drop)]
pub(crate) struct Declared {
    fields: Vec<Decl>,
    slots: Vec<SlotDecl>,
    totals: Vec<TotalDecl>,
}

/// The blocks behind the dense one.
#[derive(Drop)]
pub(crate) struct Later {
    sparse: Option<Sparse>,
    update: Vec<Stmt>,
    stop: Option<Expr>,
}

/// The blocks of a program.
#[derive(Drop)]
pub(crate) struct Blocks {
    dense: Option<Dense>,
    sparse: Option<Sparse>,
    update: Vec<Stmt>,
    stop: Option<Expr>,
}

impl Reader {
    /// The version of the language, and what follows.
    #[tactic(auto, unfolding(vert_grammar::specs::Reading::single))]
    fn version<'a>(&self, tokens: &'a [Sign]) -> Result<(u8, &'a [Sign]), Halt<'a>>
        ensures { Gives self.now.names.items (λ x. (x.0, plain self.now.names.items x.1.now))
            result (single is_version_at (λ s k. number_in k)
            (plain self.now.names.items tokens.now)) }
    {
        match tokens {
            [] => Err(Halt::Fault(Why::Unexpected, tokens)),
            [t, ..] => match t.kind {
                SignKind::Number(number) => {
                    if number.value == 1 {
                        Ok((1, self.rest(tokens)))
                    } else if number.value == 2 {
                        Ok((2, self.rest(tokens)))
                    } else {
                        Err(Halt::Fault(Why::Unexpected, tokens))
                    }
                }
                _ => Err(Halt::Fault(Why::Unexpected, tokens)),
            },
        }
    }

    /// A mode with its place, and what follows.
    #[tactic(auto, unfolding(vert_grammar::specs::Reading::single))]
    fn mode<'a>(&self, tokens: &'a [Sign]) -> Result<(Span, Mode, &'a [Sign]), Halt<'a>>
        ensures { Gives self.now.names.items (λ x.
            ((x.0, x.1), plain self.now.names.items x.2.now)) result
            (single {A = Span × Mode} is_mode (λ s k. (s, mode_of k))
            (plain self.now.names.items tokens.now)) }
    {
        let span = self.place(tokens);
        if self.begins_word(words::AUTO, tokens) {
            return Ok((span, Mode::Auto, self.rest(tokens)));
        }
        if self.begins_word(words::DENSE, tokens) {
            return Ok((span, Mode::Dense, self.rest(tokens)));
        }
        if self.begins_word(words::SPARSE, tokens) {
            return Ok((span, Mode::Sparse, self.rest(tokens)));
        }
        Err(Halt::Fault(Why::Unexpected, tokens))
    }

    /// The version, the mode and the limit, and what follows.
    #[tactic(auto, unfolding(vert_grammar::specs::Reading::header_at))]
    fn head<'a>(&self, tokens: &'a [Sign]) -> Result<(Head, &'a [Sign]), Halt<'a>>
        ensures { Gives self.now.names.items (λ x.
            (view_head x.0, plain self.now.names.items x.1.now)) result
            (header_at (plain self.now.names.items tokens.now)) }
    {
        let (_, tokens) = self.word(words::VERTEX, tokens)?;
        let (version, tokens) = self.version(tokens)?;
        let (_, tokens) = self.mark(marks::SEMICOLON, tokens)?;
        let (_, tokens) = self.word(words::MODE, tokens)?;
        let (mode_at, mode, tokens) = self.mode(tokens)?;
        let (_, tokens) = self.mark(marks::SEMICOLON, tokens)?;
        let (_, tokens) = self.word(words::LIMIT, tokens)?;
        let (limit_at, limit, tokens) = self.number(tokens)?;
        let (_, tokens) = self.mark(marks::SEMICOLON, tokens)?;
        let head = Head {
            version,
            mode,
            mode_at,
            limit: limit.value,
            limit_at,
        };
        Ok((head, tokens))
    }

    /// The fields, the slots and the totals, and what follows.
    #[tactic(auto, unfolding(vert_grammar::specs::Reading::names_at))]
    fn declared<'a>(
        &self,
        version: u8,
        tokens: &'a [Sign],
    ) -> Result<(Declared, &'a [Sign]), Halt<'a>>
        ensures { Gives self.now.names.items (λ x.
            (view_declared self.now.names.items x.0, plain self.now.names.items x.1.now)) result
            (names_at version limits (plain self.now.names.items tokens.now)) }
    {
        let (fields, tokens) = self.declarations(words::FIELD, FIELDS, tokens)?;
        let (slots, tokens) = self.slots(tokens)?;
        let (totals, tokens) = self.totals(version, tokens)?;
        let declared = Declared {
            fields,
            slots,
            totals,
        };
        Ok((declared, tokens))
    }

    /// The start test and what follows.
    #[tactic(auto, unfolding(vert_grammar::specs::Reading::start_at))]
    fn start<'a>(&self, tokens: &'a [Sign]) -> Result<(Expr, &'a [Sign]), Halt<'a>>
        ensures { Gives self.now.names.items (λ x.
            (view self.now.names.items x.0, plain self.now.names.items x.1.now)) result
            (start_at 64 (plain self.now.names.items tokens.now)) }
    {
        let (_, tokens) = self.word(words::START, tokens)?;
        let (test, _, tokens) = self.ended(marks::SEMICOLON, DEPTH, tokens)?;
        Ok((test, tokens))
    }

    /// The statements of a block, the place of the brace behind them, and what follows.
    fn closed<'a>(
        &self,
        rights: Rights,
        tokens: &'a [Sign],
    ) -> Result<(Vec<Stmt>, Span, &'a [Sign]), Halt<'a>>
        ensures { Gives self.now.names.items (λ x.
            ((view_block self.now.names.items x.0.items, x.1), plain self.now.names.items x.2.now))
            result (both (block_at (plain_rights rights) 64) (the_mark RIGHT_BRACE)
            (plain self.now.names.items tokens.now)) }
    {
        let (body, tokens) = self.block(rights, DEPTH, tokens)?;
        let (span, tokens) = self.mark(marks::RIGHT_BRACE, tokens)?;
        Ok((body, span, tokens))
    }

    /// The loop body and the tail of a dense block, and what follows.
    fn looped<'a>(&self, tokens: &'a [Sign]) -> Result<(Vec<Stmt>, Vec<Stmt>, &'a [Sign]), Halt<'a>>
        ensures { Gives self.now.names.items (λ x. (
          (
            view_block self.now.names.items x.0.items,
            view_block self.now.names.items x.1.items,
          ),
          plain self.now.names.items x.2.now,
        )) result
            (loop_at (plain self.now.names.items tokens.now)) }
    {
        let (_, tokens) = self.word(words::FOR, tokens)?;
        let (_, tokens) = self.word(words::U, tokens)?;
        let (_, tokens) = self.mark(marks::LEFT_BRACE, tokens)?;
        let (body, tokens) = self.block(LOOP, DEPTH, tokens)?;
        let (_, tokens) = self.mark(marks::RIGHT_BRACE, tokens)?;
        let (tail, _, tokens) = self.closed(TAIL, tokens)?;
        Ok((body, tail, tokens))
    }

    /// The dense block and what follows.
    #[tactic(auto, using(crate::proofs::Parted::dense_step))]
    fn dense<'a>(&self, tokens: &'a [Sign]) -> Result<(Dense, &'a [Sign]), Halt<'a>>
        ensures { Gives self.now.names.items (λ x.
            (view_dense self.now.names.items x.0, plain self.now.names.items x.1.now)) result
            (dense_at limits (plain self.now.names.items tokens.now)) }
    {
        let (_, tokens) = self.word(words::DENSE, tokens)?;
        let (_, tokens) = self.word(words::WHEN, tokens)?;
        let (when_test, _, tokens) = self.ended(marks::LEFT_BRACE, DEPTH, tokens)?;
        let (lets, tokens) = self.declarations(words::LET, LOCALS, tokens)?;
        let (body, tail, tokens) = self.looped(tokens)?;
        let dense = Dense {
            when_test,
            lets,
            body,
            tail,
        };
        Ok((dense, tokens))
    }

    /// The sparse block and what follows.
    #[tactic(auto, unfolding(vert_grammar::specs::Reading::sparse_at))]
    fn sparse<'a>(&self, tokens: &'a [Sign]) -> Result<(Sparse, &'a [Sign]), Halt<'a>>
        ensures { Gives self.now.names.items (λ x.
            (view_sparse self.now.names.items x.0, plain self.now.names.items x.1.now)) result
            (sparse_at limits (plain self.now.names.items tokens.now)) }
    {
        let (_, tokens) = self.word(words::SPARSE, tokens)?;
        let (_, tokens) = self.word(words::WHEN, tokens)?;
        let (when_test, _, tokens) = self.ended(marks::LEFT_BRACE, DEPTH, tokens)?;
        let (sends, tokens) = self.declarations(words::SEND, SENDS, tokens)?;
        let (body, _, tokens) = self.closed(SPARSE, tokens)?;
        let sparse = Sparse {
            when_test,
            sends,
            body,
        };
        Ok((sparse, tokens))
    }

    /// The update block and what follows.
    #[tactic(auto, unfolding(vert_grammar::specs::Reading::update_at))]
    fn update<'a>(&self, tokens: &'a [Sign]) -> Result<(Vec<Stmt>, &'a [Sign]), Halt<'a>>
        ensures { Gives self.now.names.items (λ x.
            (view_block self.now.names.items x.0.items, plain self.now.names.items x.1.now)) result
            (update_at 64 (plain self.now.names.items tokens.now)) }
    {
        let (_, tokens) = self.word(words::UPDATE, tokens)?;
        let (_, tokens) = self.mark(marks::LEFT_BRACE, tokens)?;
        let (body, _, tokens) = self.closed(UPDATE, tokens)?;
        Ok((body, tokens))
    }

    /// The stop test and what follows.
    #[tactic(auto, unfolding(vert_grammar::specs::Reading::stop_at))]
    fn stop<'a>(&self, tokens: &'a [Sign]) -> Result<(Expr, &'a [Sign]), Halt<'a>>
        ensures { Gives self.now.names.items (λ x.
            (view self.now.names.items x.0, plain self.now.names.items x.1.now)) result
            (stop_at 64 (plain self.now.names.items tokens.now)) }
    {
        let (_, tokens) = self.text(STOP, tokens)?;
        let (test, _, tokens) = self.ended(marks::SEMICOLON, DEPTH, tokens)?;
        Ok((test, tokens))
    }

    fn maybe_dense<'a>(&self, tokens: &'a [Sign]) -> Result<(Option<Dense>, &'a [Sign]), Halt<'a>>
        ensures { Gives self.now.names.items (λ x.
            (option_map (view_dense self.now.names.items) x.0, plain self.now.names.items x.1.now))
            result (maybe (is_word word.DENSE) (dense_at limits)
            (plain self.now.names.items tokens.now)) }
    {
        if !self.begins_word(words::DENSE, tokens) {
            return Ok((None, tokens));
        }
        let (dense, tokens) = self.dense(tokens)?;
        Ok((Some(dense), tokens))
    }

    fn maybe_sparse<'a>(&self, tokens: &'a [Sign]) -> Result<(Option<Sparse>, &'a [Sign]), Halt<'a>>
        ensures { Gives self.now.names.items (λ x. (
          option_map (view_sparse self.now.names.items) x.0,
          plain self.now.names.items x.1.now,
        )) result
            (maybe (is_word word.SPARSE) (sparse_at limits)
            (plain self.now.names.items tokens.now)) }
    {
        if !self.begins_word(words::SPARSE, tokens) {
            return Ok((None, tokens));
        }
        let (sparse, tokens) = self.sparse(tokens)?;
        Ok((Some(sparse), tokens))
    }

    /// The stop test, which version 2 alone has, and what follows.
    fn maybe_stop<'a>(
        &self,
        version: u8,
        tokens: &'a [Sign],
    ) -> Result<(Option<Expr>, &'a [Sign]), Halt<'a>>
        ensures { Gives self.now.names.items (λ x.
            (option_map (view self.now.names.items) x.0, plain self.now.names.items x.1.now))
            result (maybe (is_stop version) (stop_at 64) (plain self.now.names.items tokens.now)) }
    {
        if !self.may_text(version == 2, STOP, tokens) {
            return Ok((None, tokens));
        }
        let (test, tokens) = self.stop(tokens)?;
        Ok((Some(test), tokens))
    }

    /// The update block and the stop test, and what follows.
    fn update_and_stop<'a>(
        &self,
        version: u8,
        tokens: &'a [Sign],
    ) -> Result<(Vec<Stmt>, Option<Expr>, &'a [Sign]), Halt<'a>>
        ensures { Gives self.now.names.items (λ x. (
          (
            view_block self.now.names.items x.0.items,
            option_map (view self.now.names.items) x.1,
          ),
          plain self.now.names.items x.2.now,
        ))
            result (both (update_at 64) (maybe (is_stop version) (stop_at 64))
            (plain self.now.names.items tokens.now)) }
    {
        let (update, tokens) = self.update(tokens)?;
        let (stop, tokens) = self.maybe_stop(version, tokens)?;
        Ok((update, stop, tokens))
    }

    /// The blocks behind the dense one, and what follows.
    fn later_blocks<'a>(
        &self,
        version: u8,
        tokens: &'a [Sign],
    ) -> Result<(Later, &'a [Sign]), Halt<'a>>
        ensures { Gives self.now.names.items (λ x.
            (view_later self.now.names.items x.0, plain self.now.names.items x.1.now)) result
            (later_at version (plain self.now.names.items tokens.now)) }
    {
        let (sparse, tokens) = self.maybe_sparse(tokens)?;
        let (update, stop, tokens) = self.update_and_stop(version, tokens)?;
        let later = Later {
            sparse,
            update,
            stop,
        };
        Ok((later, tokens))
    }

    /// What stands behind the start test, and what follows it.
    #[tactic(auto, unfolding(vert_grammar::specs::Reading::blocks_at))]
    fn blocks<'a>(&self, version: u8, tokens: &'a [Sign]) -> Result<(Blocks, &'a [Sign]), Halt<'a>>
        ensures { Gives self.now.names.items (λ x.
            (view_blocks self.now.names.items x.0, plain self.now.names.items x.1.now)) result
            (blocks_at version limits (plain self.now.names.items tokens.now)) }
    {
        let (dense, tokens) = self.maybe_dense(tokens)?;
        let (later, tokens) = self.later_blocks(version, tokens)?;
        let blocks = Blocks {
            dense,
            sparse: later.sparse,
            update: later.update,
            stop: later.stop,
        };
        Ok((blocks, tokens))
    }

    /// A program without its names, and what follows it.
    #[tactic(auto, unfolding(vert_grammar::specs::Reading::program_at))]
    fn program<'a>(&self, tokens: &'a [Sign]) -> Result<(Program, &'a [Sign]), Halt<'a>>
        ensures { Gives self.now.names.items (λ x.
            (view_named self.now.names.items x.0, plain self.now.names.items x.1.now)) result
            (program_at limits (plain self.now.names.items tokens.now)) }
    {
        let (head, tokens) = self.head(tokens)?;
        let (declared, tokens) = self.declared(head.version, tokens)?;
        let (start, tokens) = self.start(tokens)?;
        let (blocks, tokens) = self.blocks(head.version, tokens)?;
        let program = Program {
            version: head.version,
            mode: head.mode,
            mode_at: head.mode_at,
            limit: head.limit,
            limit_at: head.limit_at,
            names: Vec::new(self.alloc),
            fields: declared.fields,
            slots: declared.slots,
            totals: declared.totals,
            start,
            dense: blocks.dense,
            sparse: blocks.sparse,
            update: blocks.update,
            stop: blocks.stop,
        };
        Ok((program, tokens))
    }

    /// All of the tokens as a program without its names.
    #[tactic(auto, unfolding(vert_grammar::specs::Reading::all_of))]
    pub fn all<'a>(&self, tokens: &'a [Sign]) -> Result<Program, Halt<'a>>
        ensures { Gives self.now.names.items (λ x. (view_named self.now.names.items x, [])) result
            (all_of limits (plain self.now.names.items tokens.now)) }
    {
        let (program, tokens) = self.program(tokens)?;
        match tokens {
            [] => Ok(program),
            [_, ..] => Err(Halt::Fault(Why::Unexpected, tokens)),
        }
    }
}

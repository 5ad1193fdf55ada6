ghost use Rattle.std.specs.Prelude.{◌≡◌, ◌&&◌, map, Some, None, if◌then◌else◌};
ghost use Rattle.std.specs.Str.{bytes_eq};
ghost use Rattle.vert_grammar.specs.Reading.{begins, declaration_at, expect, is_fold_at, is_total, single, slot_at, total_at, type_at, up_to};
ghost use Rattle.vert_grammar.specs.Signs.{combine_of, is_combine, is_named, is_word};
ghost use Rattle.vert_lex.specs.Tokens.{Name, Reserved};
ghost use Rattle.vert_lex.specs.declared.words.TheConstants.{SLOT};
ghost use Rattle.tree_reader.specs.Signs.{Gives, plain};
ghost use Rattle.vert_tree.specs.Views.{text_of, view_declaration, view_slot, view_total};

use crate::fault::{Halt, Why};
use crate::reader::Reader;
use crate::sign::{Sign, SignKind};
use vert_base::{Combine, Span, ValueType};
use vert_lex::{marks, words};
use vert_tree::{Decl, SlotDecl, TotalDecl};

/// How many nodes may be nested in one another.
pub(crate) const DEPTH: u8 = 64;

/// The most slots.
const SLOTS: usize = 8;

/// The most totals.
const TOTALS: usize = 4;

/// The text of the name that version 2 reads as the keyword of a total.
const TOTAL: &[u8] = b"total";

/// How a word combines values, where it says so.
fn combine(word: u8) -> Option<Combine>
    ensures { result ≡ (if is_combine (Reserved word) then Some (combine_of (Reserved word))
        else None) }
{
    match word {
        words::MIN => Some(Combine::Min),
        words::MAX => Some(Combine::Max),
        words::SUM => Some(Combine::Sum),
        words::FIRST => Some(Combine::First),
        _ => None,
    }
}

/// The same where a total may combine so.
fn fold(word: u8) -> Option<Combine>
    ensures { result ≡ (if is_fold_at (Reserved word) then Some (combine_of (Reserved word))
        else None) }
{
    match combine(word)? {
        Combine::First => None,
        op => Some(op),
    }
}

impl Reader {
    /// Whether the first token is a name of this text and may be it.
    pub(crate) fn may_text(&self, may: bool, text: &[u8], tokens: &[Sign]) -> bool
        ensures { result ≡ begins (λ k. may && is_named text.now k)
            (plain self.now.names.items tokens.now) }
    {
        match tokens {
            [] => false,
            [t, ..] => match t.kind {
                SignKind::Name(name) => may && self.is_text(name, text),
                _ => false,
            },
        }
    }

    /// Whether a name has this text.
    fn is_text(&self, name: u32, text: &[u8]) -> bool
        ensures { result ≡ bytes_eq (text_of self.now.names.items name) text.now }
    {
        match self.names.get(name as usize) {
            Some(found) => found.as_bytes() == text,
            None => text.is_empty(),
        }
    }

    /// The place of a name of this text, and what follows it.
    #[tactic(auto, unfolding(vert_grammar::specs::Reading::single))]
    pub(crate) fn text<'a>(
        &self,
        text: &[u8],
        tokens: &'a [Sign],
    ) -> Result<(Span, &'a [Sign]), Halt<'a>>
        ensures { Gives self.now.names.items (λ x. (x.0, plain self.now.names.items x.1.now))
            result (expect (Name text.now) (plain self.now.names.items tokens.now)) }
    {
        if !self.may_text(true, text, tokens) {
            return Err(Halt::Fault(Why::Unexpected, tokens));
        }
        Ok((self.place(tokens), self.rest(tokens)))
    }

    /// A type and what follows it.
    #[tactic(auto, unfolding(vert_grammar::specs::Reading::type_at, vert_grammar::specs::Reading::single))]
    fn value_type<'a>(&self, tokens: &'a [Sign]) -> Result<(ValueType, &'a [Sign]), Halt<'a>>
        ensures { Gives self.now.names.items (λ x. (x.0, plain self.now.names.items x.1.now))
            result (type_at (plain self.now.names.items tokens.now)) }
    {
        if self.begins_word(words::INT, tokens) {
            return Ok((ValueType::Int, self.rest(tokens)));
        }
        if self.begins_word(words::BOOL, tokens) {
            return Ok((ValueType::Bool, self.rest(tokens)));
        }
        Err(Halt::Fault(Why::Unexpected, tokens))
    }

    /// How a slot combines, and what follows.
    #[tactic(auto, unfolding(vert_grammar::specs::Reading::single))]
    fn combine<'a>(&self, tokens: &'a [Sign]) -> Result<(Combine, &'a [Sign]), Halt<'a>>
        ensures { Gives self.now.names.items (λ x. (x.0, plain self.now.names.items x.1.now))
            result (single is_combine (λ s k. combine_of k)
            (plain self.now.names.items tokens.now)) }
    {
        match tokens {
            [] => Err(Halt::Fault(Why::Unexpected, tokens)),
            [t, ..] => match t.kind {
                SignKind::Reserved(word) => match combine(word) {
                    Some(op) => Ok((op, self.rest(tokens))),
                    None => Err(Halt::Fault(Why::Unexpected, tokens)),
                },
                _ => Err(Halt::Fault(Why::Unexpected, tokens)),
            },
        }
    }

    /// How a total combines, and what follows.
    #[tactic(auto, unfolding(vert_grammar::specs::Reading::single))]
    fn fold<'a>(&self, tokens: &'a [Sign]) -> Result<(Combine, &'a [Sign]), Halt<'a>>
        ensures { Gives self.now.names.items (λ x. (x.0, plain self.now.names.items x.1.now))
            result (single is_fold_at (λ s k. combine_of k)
            (plain self.now.names.items tokens.now)) }
    {
        match tokens {
            [] => Err(Halt::Fault(Why::Unexpected, tokens)),
            [t, ..] => match t.kind {
                SignKind::Reserved(word) => match fold(word) {
                    Some(op) => Ok((op, self.rest(tokens))),
                    None => Err(Halt::Fault(Why::Unexpected, tokens)),
                },
                _ => Err(Halt::Fault(Why::Unexpected, tokens)),
            },
        }
    }

    /// A field, a let or a send by its keyword, and what follows.
    #[tactic(auto, unfolding(vert_grammar::specs::Reading::declaration_at))]
    fn declaration<'a>(
        &self,
        keyword: u8,
        tokens: &'a [Sign],
    ) -> Result<(Decl, &'a [Sign]), Halt<'a>>
        ensures { Gives self.now.names.items (λ x.
            (view_declaration self.now.names.items x.0, plain self.now.names.items x.1.now)) result
            (declaration_at keyword 64 (plain self.now.names.items tokens.now)) }
    {
        let (_, tokens) = self.word(keyword, tokens)?;
        let (name, tokens) = self.name(tokens)?;
        let (_, tokens) = self.mark(marks::COLON, tokens)?;
        let (kind, tokens) = self.value_type(tokens)?;
        let (_, tokens) = self.mark(marks::ASSIGN, tokens)?;
        let (value, _, tokens) = self.ended(marks::SEMICOLON, DEPTH, tokens)?;
        Ok((Decl { name, kind, value }, tokens))
    }

    /// A slot and what follows it.
    #[tactic(auto, unfolding(vert_grammar::specs::Reading::slot_at))]
    fn slot<'a>(&self, tokens: &'a [Sign]) -> Result<(SlotDecl, &'a [Sign]), Halt<'a>>
        ensures { Gives self.now.names.items (λ x.
            (view_slot self.now.names.items x.0, plain self.now.names.items x.1.now)) result
            (slot_at (plain self.now.names.items tokens.now)) }
    {
        let (_, tokens) = self.word(words::SLOT, tokens)?;
        let (name, tokens) = self.name(tokens)?;
        let (_, tokens) = self.mark(marks::COLON, tokens)?;
        let (op, tokens) = self.combine(tokens)?;
        let (_, tokens) = self.mark(marks::SEMICOLON, tokens)?;
        Ok((SlotDecl { name, op }, tokens))
    }

    /// A total and what follows it.
    #[tactic(auto, unfolding(vert_grammar::specs::Reading::total_at))]
    fn total<'a>(&self, tokens: &'a [Sign]) -> Result<(TotalDecl, &'a [Sign]), Halt<'a>>
        ensures { Gives self.now.names.items (λ x.
            (view_total self.now.names.items x.0, plain self.now.names.items x.1.now)) result
            (total_at 64 (plain self.now.names.items tokens.now)) }
    {
        let (_, tokens) = self.text(TOTAL, tokens)?;
        let (name, tokens) = self.name(tokens)?;
        let (_, tokens) = self.mark(marks::COLON, tokens)?;
        let (op, tokens) = self.fold(tokens)?;
        let (_, tokens) = self.mark(marks::ASSIGN, tokens)?;
        let (value, _, tokens) = self.ended(marks::SEMICOLON, DEPTH, tokens)?;
        Ok((TotalDecl { name, op, value }, tokens))
    }

    /// Declarations by their keyword, no more than the limit, and what follows.
    pub(crate) fn declarations<'a>(
        &self,
        keyword: u8,
        limit: usize,
        tokens: &'a [Sign],
    ) -> Result<(Vec<Decl>, &'a [Sign]), Halt<'a>>
        ensures { Gives self.now.names.items (λ x. (
          map (view_declaration self.now.names.items) x.0.items,
          plain self.now.names.items x.1.now,
        )) result
            (up_to (is_word keyword) (declaration_at keyword 64) limit
            (plain self.now.names.items tokens.now)) }
    {
        let mut declarations = Vec::new(self.alloc);
        let mut tokens = tokens;
        'declarations: while self.begins_word(keyword, tokens) {
            if declarations.len() == limit {
                return Err(Halt::Fault(Why::TooMany, tokens));
            }
            let (declaration, after) = self.declaration(keyword, tokens)?;
            declarations.push(declaration)?;
            tokens = after;
        }
        Ok((declarations, tokens))
    }

    /// The slots and what follows.
    pub(crate) fn slots<'a>(
        &self,
        tokens: &'a [Sign],
    ) -> Result<(Vec<SlotDecl>, &'a [Sign]), Halt<'a>>
        ensures { Gives self.now.names.items (λ x.
            (map (view_slot self.now.names.items) x.0.items, plain self.now.names.items x.1.now))
            result (up_to (is_word SLOT) slot_at 8 (plain self.now.names.items tokens.now)) }
    {
        let mut slots = Vec::new(self.alloc);
        let mut tokens = tokens;
        'slots: while self.begins_word(words::SLOT, tokens) {
            if slots.len() == SLOTS {
                return Err(Halt::Fault(Why::TooMany, tokens));
            }
            let (slot, after) = self.slot(tokens)?;
            slots.push(slot)?;
            tokens = after;
        }
        Ok((slots, tokens))
    }

    /// The totals, which version 2 alone has, and what follows.
    pub(crate) fn totals<'a>(
        &self,
        version: u8,
        tokens: &'a [Sign],
    ) -> Result<(Vec<TotalDecl>, &'a [Sign]), Halt<'a>>
        ensures { Gives self.now.names.items (λ x.
            (map (view_total self.now.names.items) x.0.items, plain self.now.names.items x.1.now))
            result (up_to (is_total version) (total_at 64) 4
            (plain self.now.names.items tokens.now)) }
    {
        let mut totals = Vec::new(self.alloc);
        let mut tokens = tokens;
        'totals: while self.may_text(version == 2, TOTAL, tokens) {
            if totals.len() == TOTALS {
                return Err(Halt::Fault(Why::TooMany, tokens));
            }
            let (total, after) = self.total(tokens)?;
            totals.push(total)?;
            tokens = after;
        }
        Ok((totals, tokens))
    }
}

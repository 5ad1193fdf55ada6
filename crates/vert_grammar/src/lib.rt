//! The grammar of the language: which lists of tokens are which programs, the first token at which a
//! list is refused, and a reader of lists that the grammar's laws speak of. All of it stands in
//! `specs/`.
#![tactic(auto)]

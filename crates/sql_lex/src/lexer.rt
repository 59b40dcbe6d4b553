//! The tokens of a text, one by one.
ghost use Rattle.std.specs.Prelude.{◌≡◌, ◌↔◌, IsNone, IfSome, IfOk, IfErr};

use crate::front::{Piece, first_piece};
use crate::token::{LexFault, Token};
use std::marker::Model;

/// Takes the tokens of a text from its front on. Contracts see what the text still holds.
#[derive(Drop)]
pub struct Lexer<'a> {
    rest: &'a [u8],
    start: usize,
}

impl<'a> Model for Lexer<'a> {
    ghost use Rattle.std.specs.Prelude.{◌+◌, ◌<◌, ◌^◌, length};
    ghost use Rattle.sql_lex.specs.Lexemes.{Lexed};
    ghost use Rattle.sql_lex.specs.Lexing.{lexed};

    ghost Value = { Lexed };

    ghost view = { λ lexer. lexed lexer.start lexer.rest.now };

    ghost invariant = { λ lexer. lexer.start + length lexer.rest.now < 2 ^ 63 };
}

impl<'a> Lexer<'a> {
    ghost use Rattle.sql_lex.specs.Lexemes.{lexeme_of, nothing, with_first, fault_alone};
    ghost use Rattle.sql_lex.specs.Tokens.{Lexes};

    /// The lexer before the first token of the text.
    pub fn new(text: &'a [u8]) -> Lexer<'a>
        // What it holds are the tokens of the text, up to its end or its first fault.
        ensures { Lexes 0 text.now result.tokens result.fault }
    {
        Lexer {
            rest: text,
            start: 0,
        }
    }

    /// The next token; the fault where one stands next, behind which nothing is left; or the end.
    pub fn next(&mut self) -> Option<Result<Token<'a>, LexFault>>
        ensures token { IfSome result (λ answer. IfOk answer (λ token. self.old ≡ with_first (lexeme_of token) self.new)) }
        ensures fault { IfSome result (λ answer. IfErr answer (λ fault. (self.old ≡ fault_alone fault) × (self.new ≡ nothing))) }
        ensures end { IsNone result ↔ (self.old ≡ nothing) }
        ensures after_end { IsNone result → self.new ≡ nothing }
    {
        while !self.rest.is_empty() {
            let start = self.start;
            match first_piece(self.rest) {
                Ok(Piece::Gap(len)) => {
                    let (_, rest) = self.rest.split_at(len);
                    self.rest = rest;
                    self.start = start + len;
                }
                Ok(Piece::Lexeme(kind, len)) => {
                    let (text, rest) = self.rest.split_at(len);
                    self.rest = rest;
                    self.start = start + len;
                    return Some(Ok(Token { kind, text, start }));
                }
                Err(code) => {
                    self.rest = &[];
                    return Some(Err(LexFault { code, at: start }));
                }
            }
        }
        None
    }
}

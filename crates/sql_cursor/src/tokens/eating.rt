//! Single tokens, taken by their kinds.
ghost use Rattle.sql_cursor.specs.Readers.{Gives, accepted, eaten, eaten_within, expected, expected_within, lexeme, lexeme_if_any};
ghost use Rattle.std.specs.Prelude.{IfOk, IfSome, Result, ◌≡◌, ◌<◌, ◌^◌};
ghost use Rattle.sql_cursor.specs.Eating.{Eats, EatsWithin, Expects, ExpectsWithin, Extends, is_next};
ghost use Rattle.sql_grammar.specs.Kinds.{among, same};

use super::Tokens;
use crate::fault::ReadFault;
use sql_grammar::kinds::{Kind, is_among, is_same};
use sql_lex::Token;
use std::alloc::Global;

/// The place of a token.
pub fn place(token: &Token<'_>) -> u32
    requires { token.now.start < 2 ^ 32 }
    ensures { result ≡ token.now.start }
{
    token.start as u32
}

impl<'a> Tokens<'a> {
    /// Whether a token of this kind stands next.
    pub fn sees(&self, kind: Kind) -> bool
        ensures { result ≡ is_next (same kind) self.now.tokens }
    {
        match self.ahead() {
            Some((_, ahead)) => is_same(kind, ahead),
            None => false,
        }
    }

    /// Whether a token of one of these kinds stands next.
    pub fn sees_any(&self, kinds: &[Kind]) -> bool
        ensures { result ≡ is_next (among kinds.now) self.now.tokens }
    {
        match self.ahead() {
            Some((_, ahead)) => is_among(kinds, ahead),
            None => false,
        }
    }

    /// Passes the next token, if it is of this kind.
    #[tactic(auto, unfolding(crate::specs::Readers::eaten))]
    pub fn eat(&mut self, kind: Kind) -> Option<Token<'a>>
        ensures eats { Eats (same kind) self.old result self.new }
        ensures gives { Gives (lexeme_if_any (Result.Ok result)) self.new (eaten (same kind) self.old) }
        ensures place { IfSome result (λ token. token.start < 2 ^ 32) }
    {
        match self.ahead() {
            Some((token, ahead)) if is_same(kind, ahead) => {
                self.pass();
                Some(token)
            }
            _ => None,
        }
    }

    /// Passes the next token, if it is of this kind, and tells whether it was.
    #[tactic(auto, unfolding(crate::specs::Readers::accepted))]
    pub fn accept(&mut self, kind: Kind) -> bool
        ensures gives { Gives (Result.Ok result) self.new (accepted (same kind) self.old) }
        ensures extends { Extends self.old self.new }
    {
        self.eat(kind).is_some()
    }

    /// Passes the next token, if it is of one of these kinds.
    #[tactic(auto, unfolding(crate::specs::Readers::eaten))]
    pub fn eat_any(&mut self, kinds: &[Kind]) -> Option<Token<'a>>
        ensures eats { Eats (among kinds.now) self.old result self.new }
        ensures gives { Gives (lexeme_if_any (Result.Ok result)) self.new (eaten (among kinds.now) self.old) }
        ensures place { IfSome result (λ token. token.start < 2 ^ 32) }
    {
        match self.ahead() {
            Some((token, ahead)) if is_among(kinds, ahead) => {
                self.pass();
                Some(token)
            }
            _ => None,
        }
    }

    /// Passes the next token, which is to be of this kind.
    #[tactic(auto, unfolding(crate::specs::Readers::expected))]
    pub fn expect(&mut self, alloc: Global, kind: Kind) -> Result<Token<'a>, ReadFault>
        ensures eats { Expects (same kind) self.old result self.new }
        ensures gives { Gives (lexeme result) self.new (expected (same kind) self.old) }
        ensures place { IfOk result (λ token. token.start < 2 ^ 32) }
    {
        match self.eat(kind) {
            Some(token) => Ok(token),
            None => Err(self.fault(alloc)),
        }
    }

    /// Passes the next token, which is to be of one of these kinds.
    #[tactic(auto, unfolding(crate::specs::Readers::expected))]
    pub fn expect_any(&mut self, alloc: Global, kinds: &[Kind]) -> Result<Token<'a>, ReadFault>
        ensures eats { Expects (among kinds.now) self.old result self.new }
        ensures gives { Gives (lexeme result) self.new (expected (among kinds.now) self.old) }
        ensures place { IfOk result (λ token. token.start < 2 ^ 32) }
    {
        match self.eat_any(kinds) {
            Some(token) => Ok(token),
            None => Err(self.fault(alloc)),
        }
    }

    /// Passes the next token, if it is of one of these kinds; that is too deep where there is no room.
    #[tactic(auto, unfolding(crate::specs::Readers::eaten_within))]
    pub fn eat_within(&mut self, kinds: &[Kind], room: u8) -> Result<Option<Token<'a>>, ReadFault>
        ensures eats { EatsWithin (among kinds.now) room self.old result self.new }
        ensures gives { Gives (lexeme_if_any result) self.new (eaten_within (among kinds.now) room self.old) }
        ensures place { IfOk result (λ found. IfSome found (λ token. token.start < 2 ^ 32)) }
    {
        match self.ahead() {
            Some((token, ahead)) if is_among(kinds, ahead) => {
                if room == 0 {
                    return Err(ReadFault::TooDeep { at: place(&token) });
                }
                self.pass();
                Ok(Some(token))
            }
            _ => Ok(None),
        }
    }

    /// Passes the next token, which is to be of one of these kinds; that is too deep where there is no room.
    #[tactic(auto, unfolding(crate::specs::Readers::expected_within))]
    pub fn expect_within(
        &mut self,
        alloc: Global,
        kinds: &[Kind],
        room: u8,
    ) -> Result<Token<'a>, ReadFault>
        ensures eats { ExpectsWithin (among kinds.now) room self.old result self.new }
        ensures gives { Gives (lexeme result) self.new (expected_within (among kinds.now) room self.old) }
        ensures place { IfOk result (λ token. token.start < 2 ^ 32) }
    {
        match self.eat_within(kinds, room)? {
            Some(token) => Ok(token),
            None => Err(self.fault(alloc)),
        }
    }
}

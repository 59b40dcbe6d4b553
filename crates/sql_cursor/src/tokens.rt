//! The tokens of a text, with what has been numbered and counted on the way.
ghost use Rattle.std.specs.Prelude.{◌≡◌, ◌≢◌, ◌≤◌, ◌<◌, ◌+◌, ◌^◌, [], drop, length, IfOk, IfSome, None, OnErr, OnOk};
ghost use Rattle.sql_lex.specs.Lexemes.{lexeme_of};
ghost use Rattle.sql_cursor.specs.Cursor.{IsKindOf};
ghost use Rattle.sql_cursor.specs.Refusals.{IsLeftOut, refusal_at};

use crate::fault::ReadFault;
use crate::names::{folded_name, is_left_out_word};
use naming::KnownNames;
use sql_grammar::kinds::{Kind, kind_of};
use sql_lex::{LexFault, Lexer, Token};
use sql_model::{NoMemory, Symbols};
use std::alloc::Global;
use std::marker::Model;

mod counting;
mod eating;
mod naming;

pub use counting::Mark;
pub use eating::place;

/// The tokens of a text that are still to come, the numbers of its symbols and literals, the weight of the values that were
/// copied, how many tokens were passed, and the names that were read.
#[derive(Drop)]
pub struct Tokens<'a> {
    lexer: Lexer<'a>,
    /// What the lexer gave last.
    next: Option<Result<Token<'a>, LexFault>>,
    /// The kind of that token: it is asked for many times. Where no token stands next it says nothing.
    kind: Kind,
    end: u32,
    symbols: Symbols,
    copies: u32,
    passed: u32,
    names: KnownNames,
}

impl<'a> Model for Tokens<'a> {
    ghost use Rattle.sql_cursor.specs.Cursor.{Cursor, IsSound, numbers_of, to_come};

    ghost Value = { Cursor };

    ghost view = { λ t. record {
      tokens = (to_come t.next t.lexer).tokens;
      fault = (to_come t.next t.lexer).fault;
      end = t.end;
      numbers = numbers_of t.symbols;
      copies = t.copies;
      passed = t.passed;
    } };

    ghost invariant = { λ t. IsSound t.next t.kind t.lexer t.copies t.passed };
}

impl<'a> Tokens<'a> {
    ghost use Rattle.sql_lex.specs.Tokens.{Lexes};
    ghost use Rattle.sql_grammar.specs.Kinds.{kind_of};
    ghost use Rattle.sql_cursor.specs.Cursor.{behind_next, first, lent, lexeme_ahead, most_bytes, most_tokens, next_of, numbers_of};
    ghost use Rattle.sql_grammar.specs.QueryCopies.{most_copies};
    ghost use Rattle.sql_grammar.specs.Numbering.{first_numbers};
    ghost use Rattle.sql_cursor.specs.Refusals.{refusal};

    /// Before the first token of the text.
    pub fn new(alloc: Global, text: &'a [u8]) -> Result<Tokens<'a>, NoMemory>
        requires { length text.now ≤ most_bytes }
        ensures tokens { IfOk result (λ tokens. Lexes 0 text.now tokens.tokens tokens.fault) }
        ensures end { IfOk result (λ tokens. tokens.end ≡ length text.now) }
        ensures numbers { IfOk result (λ tokens. tokens.numbers ≡ first_numbers) }
        ensures copies { IfOk result (λ tokens. tokens.copies ≡ 0) }
        ensures passed { IfOk result (λ tokens. tokens.passed ≡ 0) }
    {
        let symbols = Symbols::new(alloc)?;
        let mut lexer = Lexer::new(text);
        let next = lexer.next();
        let kind = kind_ahead(&next);
        Ok(Tokens {
            lexer,
            next,
            kind,
            end: text.len() as u32,
            symbols,
            copies: 0,
            passed: 0,
            names: KnownNames::new(alloc),
        })
    }

    /// The next token, or the fault where one stands next; `None` at the end.
    pub fn peek(&self) -> Result<Option<Token<'a>>, LexFault>
        ensures next { lent result ≡ next_of self.now }
        ensures place { IfOk result (λ next. IfSome next (λ token. token.start < 2 ^ 32)) }
    {
        match self.next {
            Some(Ok(token)) => Ok(Some(token)),
            Some(Err(fault)) => Err(fault),
            None => Ok(None),
        }
    }

    /// The next token and its kind, where no fault stands next.
    fn ahead(&self) -> Option<(Token<'a>, Kind)>
        ensures token { lexeme_ahead result ≡ first self.now.tokens }
        ensures kind { IfSome result (λ ahead. ahead.1 ≡ kind_of (lexeme_of ahead.0)) }
        ensures place { IfSome result (λ ahead. ahead.0.start < 2 ^ 32) }
    {
        match self.next {
            Some(Ok(token)) => Some((token, self.kind)),
            _ => None,
        }
    }

    /// Passes the next token.
    pub fn pass(&mut self)
        requires { self.old.tokens ≢ [] }
        ensures { self.new ≡ behind_next self.old }
    {
        self.next = self.lexer.next();
        self.kind = kind_ahead(&self.next);
        self.passed += 1;
    }

    /// Passes all that is left, so that nothing stands next.
    pub fn stop(&mut self)
        ensures { self.new ≡ record self.old { tokens = []; fault = None } }
    {
        self.next = None;
    }

    /// Hands on what was read; where it was refused, nothing is left. No more was copied than may be, and the text had no more
    /// tokens than bytes.
    pub fn stop_on_fault<T>(&mut self, read: Result<T, ReadFault>) -> Result<T, ReadFault>
        ensures same { result ≡ read }
        ensures still { OnOk result (self.new ≡ self.old) }
        ensures stopped { OnErr result (self.new ≡ record self.old { tokens = []; fault = None }) }
        ensures within { self.old.copies ≤ most_copies }
        ensures counted { self.old.passed + length self.old.tokens ≤ most_tokens }
    {
        if read.is_err() {
            self.next = None;
        }
        read
    }

    /// Hands on the symbols and literals numbered so far. No more was copied than may be.
    pub fn into_symbols(self) -> Symbols
        ensures numbers { numbers_of result ≡ self.entry.numbers }
        ensures within { self.entry.copies ≤ most_copies }
    {
        let Tokens { symbols, .. } = self;
        symbols
    }

    /// The refusal of what stands next.
    pub fn fault(&self, alloc: Global) -> ReadFault
        ensures fault { result ≢ ReadFault.NoMemory → result ≡ refusal self.now }
        // Memory is wanted for a left-out word alone.
        ensures memory { result ≡ ReadFault.NoMemory → IsLeftOut (refusal self.now) }
    {
        match self.peek() {
            Ok(Some(token)) => refusal(alloc, &token),
            Ok(None) => ReadFault::Unexpected { at: self.end },
            Err(fault) => ReadFault::Lex(fault),
        }
    }
}

/// The kind of a token that the lexer gave.
fn kind_ahead(next: &Option<Result<Token<'_>, LexFault>>) -> Kind
    ensures { IsKindOf next.now result }
{
    match next {
        Some(Ok(token)) => kind_of(token),
        _ => Kind::LeftOut,
    }
}

/// The refusal at a token.
fn refusal(alloc: Global, token: &Token<'_>) -> ReadFault
    requires { token.now.start < 2 ^ 32 }
    ensures fault { result ≢ ReadFault.NoMemory → result ≡ refusal_at (lexeme_of token.now) }
    ensures memory { result ≡ ReadFault.NoMemory → IsLeftOut (refusal_at (lexeme_of token.now)) }
{
    let at = token.start as u32;
    if !is_left_out_word(token) {
        return ReadFault::Unexpected { at };
    }
    match folded_name(alloc, token.text) {
        Ok(word) => ReadFault::LeftOut { word, at },
        Err(_) => ReadFault::NoMemory,
    }
}

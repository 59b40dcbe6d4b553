//! The tokens of a text of SQL.
#![tactic(auto)]

pub mod bytes;
mod front;
pub mod laws;
mod lexer;
mod token;

pub use lexer::Lexer;
pub use token::{LexCode, LexFault, Token, TokenKind};

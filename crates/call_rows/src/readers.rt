//! What the readers of texts make, which the program does not show.

use crate::fault::CallFault;
use crate::trees::TreeText;
use schema_read::read_statements;
use sql_cursor::{ReadFault, Tokens, is_word, name_of};
use sql_lex::{LexFault, Lexer, Token};
use sql_read::read_query;
use std::alloc::Global;

/// The most bytes of a text that is read.
const MOST_BYTES: usize = 1_048_576;

// The tokens of a text.
fn tokens_of(alloc: Global, text: &str) -> Result<Tokens<'_>, CallFault> {
    if text.len() > MOST_BYTES {
        return Err(CallFault::TooLarge);
    }
    Ok(Tokens::new(alloc, text.as_bytes())?)
}

/// `query TEXT`: the tree of the longest query at the start of the text, and where the text goes on; or why there is none.
pub fn query_tree(alloc: Global, text: &str) -> Result<String, CallFault> {
    let mut tokens = tokens_of(alloc, text)?;
    let mut written = TreeText::new(alloc);
    match read_query(alloc, &mut tokens) {
        Ok(query) => written.push_query(&query)?,
        Err(fault) => return refused(alloc, fault),
    }
    push_rest(alloc, &mut written, &tokens)?;
    Ok(written.finish())
}

/// `copy-query TEXT`: `copied` where a query begins the text; it and its copy are taken apart.
pub fn copied_query(alloc: Global, text: &str) -> Result<String, CallFault> {
    let mut tokens = tokens_of(alloc, text)?;
    match read_query(alloc, &mut tokens) {
        Ok(query) => {
            let _copy = query.copy(alloc)?;
            Ok(String::from_str(alloc, "copied")?)
        }
        Err(fault) => refused(alloc, fault),
    }
}

/// `statements TEXT`: the statements at the start of the text, and where it goes on; or why they are none.
pub fn statement_trees(alloc: Global, text: &str) -> Result<String, CallFault> {
    let mut tokens = tokens_of(alloc, text)?;
    let mut written = TreeText::new(alloc);
    match read_statements(alloc, &mut tokens) {
        Ok(statements) => written.push_statements(statements.as_slice())?,
        Err(fault) => return refused(alloc, fault),
    }
    push_rest(alloc, &mut written, &tokens)?;
    Ok(written.finish())
}

/// `name TEXT`: the name that the first token of the text spells, or `nothing`.
pub fn spelled_name(alloc: Global, text: &str) -> Result<String, CallFault> {
    match name_of(alloc, &first_token(text)?)? {
        Some(name) => Ok(String::from_utf8_lossy(alloc, name.as_bytes())?),
        None => Ok(String::from_str(alloc, "nothing")?),
    }
}

/// `word WORD TEXT`: whether the first token of the text is a word that folds to this one.
pub fn folds_to_word(alloc: Global, words: &str) -> Result<String, CallFault> {
    let (word, text) = words.split_once(' ').ok_or(CallFault::OtherWords)?;
    let answer = if is_word(&first_token(text)?, word.as_bytes()) {
        "yes"
    } else {
        "no"
    };
    Ok(String::from_str(alloc, answer)?)
}

fn first_token(text: &str) -> Result<Token<'_>, CallFault> {
    match Lexer::new(text.as_bytes()).next() {
        Some(Ok(token)) => Ok(token),
        _ => Err(CallFault::BadWord),
    }
}

// Where the text goes on, if it does.
fn push_rest(alloc: Global, written: &mut TreeText, tokens: &Tokens<'_>) -> Result<(), CallFault> {
    let rest = match tokens.peek() {
        Ok(None) => return Ok(()),
        Ok(Some(token)) => {
            let at = token.start;
            format!(in alloc; " then {at}")?
        }
        Err(LexFault { code, at }) => format!(in alloc; " then {code:?} {at}")?,
    };
    written.push(rest.as_str())?;
    Ok(())
}

// Why a text is refused.
fn refused(alloc: Global, fault: ReadFault) -> Result<String, CallFault> {
    match fault {
        ReadFault::Lex(LexFault { code, at }) => Ok(format!(in alloc; "{code:?} {at}")?),
        ReadFault::Unexpected { at } => Ok(format!(in alloc; "Unexpected {at}")?),
        ReadFault::LeftOut { word, at } => {
            let word = String::from_utf8_lossy(alloc, word.as_bytes())?;
            Ok(format!(in alloc; "LeftOut {word} {at}")?)
        }
        ReadFault::TooDeep { at } => Ok(format!(in alloc; "TooDeep {at}")?),
        ReadFault::Limit { what } => Ok(format!(in alloc; "{what:?}")?),
        ReadFault::NoMemory => Err(CallFault::NoMemory),
    }
}

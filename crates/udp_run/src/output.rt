//! The line of each refusal, with its line feed. It is empty where memory ran out.
ghost use Rattle.std.specs.Prelude.{◌≡◌, IfOk, string_bytes};
ghost use Rattle.udp_run.specs.Output as lines;

use case_core::{CaseFault, LimitKind as SizeKind, TermFault};
use proof_check::{LimitKind as ProofLimit, ProofFault};
use schema_read::{SchemaCode, SchemaFault};
use scope_core::{ScopeCode, ScopeFault};
use sql_cursor::{LimitKind, ReadFault};
use sql_lex::LexCode;
use sql_model::Name;
use std::alloc::{AllocError, Global};

// What is refused, and where.
fn refused_at(alloc: Global, code: &str, place: u64) -> Result<String, AllocError>
    ensures { IfOk result (λ line. string_bytes line ≡ lines.refused_at code.now place) }
{
    format!(in alloc; "case refused: {code} at {place}\n")
}

fn lex_code(code: LexCode) -> &'static str
    ensures { result.now ≡ lines.lex_code code }
{
    match code {
        LexCode::BadByte => "E01",
        LexCode::OpenString => "E02",
        LexCode::OpenComment => "E03",
        LexCode::OpenName => "E04",
        LexCode::BadNumber => "E05",
    }
}

fn schema_code(code: SchemaCode) -> &'static str
    ensures { result.now ≡ lines.schema_code code }
{
    match code {
        SchemaCode::TableTwice => "E20",
        SchemaCode::ColumnTwice => "E21",
        SchemaCode::UnknownTable => "E22",
        SchemaCode::UnknownColumn => "E23",
        SchemaCode::NoSuchKey => "E24",
        SchemaCode::CountDiffers => "E25",
        SchemaCode::PrimaryTwice => "E26",
    }
}

// The code, with the two widths where two differ.
fn scope_code(alloc: Global, code: ScopeCode, first: u32, second: u32) -> Result<String, AllocError>
    ensures { IfOk result (λ text. string_bytes text ≡ lines.scope_code code first second) }
{
    let text = match code {
        ScopeCode::UnknownTable => "E30",
        ScopeCode::UnknownAlias => "E31",
        ScopeCode::UnknownColumn => "E32",
        ScopeCode::Ambiguous => "E33",
        ScopeCode::AliasTwice => "E34",
        ScopeCode::NotTruth => "E35",
        ScopeCode::NotValue => "E36",
        ScopeCode::AggregateHere => "E37",
        ScopeCode::NotGrouped => "E38",
        ScopeCode::OuterAggregate => "E39",
        ScopeCode::SubqueryInGroup => "E40",
        ScopeCode::WidthDiffers => return format!(in alloc; "E41 {first} {second}"),
        ScopeCode::ScalarNotAggregate => "E42",
        ScopeCode::NameTwice => "E43",
        ScopeCode::StarInGroup => "E44",
    };
    String::from_str(alloc, text)
}

fn count_limit(what: LimitKind) -> &'static str
    ensures { result.now ≡ lines.count_limit what }
{
    match what {
        LimitKind::Columns => "limit columns 32\n",
        LimitKind::Entries => "limit entries 32\n",
        LimitKind::Relations => "limit relations 256\n",
        LimitKind::Copies => "limit copies 1000000\n",
    }
}

// A word that is left out, and where.
fn left_out(alloc: Global, word: &Name, place: u32) -> Result<Vec<u8>, AllocError>
    ensures { IfOk result (λ line. line.items ≡ lines.left_out word.now place) }
{
    let mut line = Vec::from_slice(alloc, b"case refused: E11 ")?;
    line.extend_from_slice(word.as_bytes())?;
    line.extend_from_slice(format!(in alloc; " at {place}\n")?.as_bytes())?;
    Ok(line)
}

fn read_line(alloc: Global, fault: &ReadFault) -> Result<Vec<u8>, AllocError>
    ensures { IfOk result (λ line. line.items ≡ lines.read_text fault.now) }
{
    let line = match fault {
        ReadFault::Lex(fault) => refused_at(alloc, lex_code(fault.code), fault.at as u64)?,
        ReadFault::Unexpected { at } => refused_at(alloc, "E10", u64::from(*at))?,
        ReadFault::LeftOut { word, at } => return left_out(alloc, word, *at),
        ReadFault::TooDeep { at } => refused_at(alloc, "E12", u64::from(*at))?,
        ReadFault::Limit { what } => String::from_str(alloc, count_limit(*what))?,
        ReadFault::NoMemory => String::new(alloc),
    };
    Ok(line.into_bytes())
}

fn schema_line(alloc: Global, fault: SchemaFault) -> Result<String, AllocError>
    ensures { IfOk result (λ line. string_bytes line ≡ lines.schema_text fault) }
{
    match fault {
        SchemaFault::Refused { code, at } => refused_at(alloc, schema_code(code), u64::from(at)),
        SchemaFault::NoMemory => Ok(String::new(alloc)),
    }
}

fn scope_line(alloc: Global, fault: ScopeFault) -> Result<String, AllocError>
    ensures { IfOk result (λ line. string_bytes line ≡ lines.scope_text fault) }
{
    match fault {
        ScopeFault::Refused {
            code,
            at,
            first,
            second,
        } => {
            let code = scope_code(alloc, code, first, second)?;
            refused_at(alloc, code.as_str(), u64::from(at))
        }
        ScopeFault::TooWide { .. } => String::from_str(alloc, "limit width 2048\n"),
        ScopeFault::NoMemory => Ok(String::new(alloc)),
    }
}

/// The line of a case that is refused.
pub fn case_line(alloc: Global, fault: &CaseFault) -> Result<Vec<u8>, AllocError>
    ensures { IfOk result (λ line. line.items ≡ lines.case_text fault.now) }
{
    let line = match fault {
        CaseFault::Read(fault) => return read_line(alloc, fault),
        CaseFault::Schema(fault) => schema_line(alloc, *fault)?,
        CaseFault::Scope(fault) => scope_line(alloc, *fault)?,
        CaseFault::QueriesDiffer { left, right } => {
            format!(in alloc; "case refused: E45 {left} {right}\n")?
        }
        CaseFault::NotTwoQueries { count, at } => {
            format!(in alloc; "case refused: E46 {count} at {at}\n")?
        }
        CaseFault::NoMemory => String::new(alloc),
    };
    Ok(line.into_bytes())
}

/// The line of a case with a term that is too big.
pub fn size_line(fault: TermFault) -> &'static str
    ensures { result.now ≡ lines.size_text fault }
{
    match fault {
        TermFault::TooBig { what, .. } => match what {
            SizeKind::Nodes => "limit nodes 200000\n",
            SizeKind::Depth => "limit depth 2048\n",
        },
        TermFault::NoMemory => "",
    }
}

fn proof_limit(what: ProofLimit) -> &'static str
    ensures { result.now ≡ lines.proof_limit what }
{
    match what {
        ProofLimit::Nodes => "limit nodes 200000\n",
        ProofLimit::Depth => "limit depth 2048\n",
        ProofLimit::Steps => "limit steps 1000000\n",
        ProofLimit::Nesting => "limit nesting 64\n",
    }
}

/// The line of a proof that is refused.
pub fn proof_line(alloc: Global, fault: ProofFault) -> Result<Vec<u8>, AllocError>
    ensures { IfOk result (λ line. line.items ≡ lines.proof_text fault) }
{
    let text = match fault {
        ProofFault::BadHeader => "proof refused: P1\n",
        ProofFault::BadVersion => "proof refused: P2\n",
        ProofFault::BadOuts => "proof refused: P3\n",
        ProofFault::BadLine { line, column } => {
            let text = format!(in alloc; "proof refused: P4 at line {line} column {column}\n")?;
            return Ok(text.into_bytes());
        }
        ProofFault::NoEnd => "proof refused: P5\n",
        ProofFault::AfterEnd => "proof refused: P6\n",
        ProofFault::Limit { what, .. } => proof_limit(what),
        ProofFault::NoMemory => "",
    };
    Vec::from_slice(alloc, text.as_bytes())
}

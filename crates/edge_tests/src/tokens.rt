use sql_lex::{LexCode, LexFault, Lexer, Token, TokenKind};
use std::alloc::{AllocError, Global};
use std::test::Fail;

fn letter(kind: TokenKind) -> char {
    match kind {
        TokenKind::Word => 'w',
        TokenKind::Quoted => 'q',
        TokenKind::Number => 'n',
        TokenKind::Text => 't',
        TokenKind::Symbol => 's',
    }
}

fn digit(code: LexCode) -> char {
    match code {
        LexCode::BadByte => '1',
        LexCode::OpenString => '2',
        LexCode::OpenComment => '3',
        LexCode::OpenName => '4',
        LexCode::BadNumber => '5',
    }
}

/// A token as `w0 word `, and a fault as `E1 at 0 `.
fn push_answer(
    alloc: Global,
    told: &mut Vec<u8>,
    answer: Result<Token<'_>, LexFault>,
) -> Result<(), AllocError> {
    let head = match answer {
        Ok(token) => format!(in alloc; "{}{} ", letter(token.kind), token.start)?,
        Err(fault) => format!(in alloc; "E{} at {}", digit(fault.code), fault.at)?,
    };
    told.extend_from_slice(head.as_bytes())?;
    if let Ok(token) = answer {
        told.extend_from_slice(token.text)?;
    }
    told.push(b' ')?;
    Ok(())
}

/// What the lexer answers, one by one, up to a point for the end.
fn told(alloc: Global, text: &[u8]) -> Result<Vec<u8>, AllocError> {
    let mut lexer = Lexer::new(text);
    let mut told = Vec::new(alloc);
    for _ in 0..u64::MAX {
        let Some(answer) = lexer.next() else {
            break;
        };
        push_answer(alloc, &mut told, answer)?;
    }
    told.push(b'.')?;
    Ok(told)
}

/// Texts, and what they hold.
const TEXTS: [(&[u8], &[u8]); 55] = [
    (b"", b"."),
    (b" \t\r\n", b"."),
    (b"_a9 A", b"w0 _a9 w4 A ."),
    (b"select Select", b"w0 select w7 Select ."),
    // numbers
    (b"1", b"n0 1 ."),
    (b"1.", b"n0 1. ."),
    (b".5", b"n0 .5 ."),
    (b"1.50-2", b"n0 1.50 s4 - n5 2 ."),
    (b".", b"s0 . ."),
    (b"a.5", b"w0 a n1 .5 ."),
    (b"a.b", b"w0 a s1 . w2 b ."),
    (b"1.5.2", b"E5 at 0 ."),
    (b"1..2", b"E5 at 0 ."),
    (b".5.", b"E5 at 0 ."),
    (b"1.a", b"E5 at 0 ."),
    (b"x 1a", b"w0 x E5 at 2 ."),
    (b"1_", b"E5 at 0 ."),
    // comments
    (b"a--b", b"w0 a ."),
    (b"a--b\nc--", b"w0 a w5 c ."),
    (b"1--2", b"n0 1 ."),
    (b"- -", b"s0 - s2 - ."),
    (b"a/*b*/c", b"w0 a w6 c ."),
    (b"a/**/b/***/c", b"w0 a w5 b w11 c ."),
    (b"/* /* */ a */", b"w9 a s11 * s12 / ."),
    (b"/*--*/a--/*", b"w6 a ."),
    (b"/*/", b"E3 at 0 ."),
    (b"a/*", b"w0 a E3 at 1 ."),
    (b"/*b*", b"E3 at 0 ."),
    (b"/ *", b"s0 / s2 * ."),
    // texts
    (b"''", b"t0 '' ."),
    (b"''''", b"t0 '''' ."),
    (b"'a''b'c", b"t0 'a''b' w6 c ."),
    (b"'a' 'b'", b"t0 'a' t4 'b' ."),
    (b"'--/*\"'", b"t0 '--/*\"' ."),
    (b"a'x", b"w0 a E2 at 1 ."),
    (b"'", b"E2 at 0 ."),
    (b"'a''", b"E2 at 0 ."),
    // quoted names
    (b"\"a\"\"b\"", b"q0 \"a\"\"b\" ."),
    (b"\"\"\"\"", b"q0 \"\"\"\" ."),
    (b"\"a b\"\"\"c", b"q0 \"a b\"\"\" w7 c ."),
    (b"\"a", b"E4 at 0 ."),
    (b"a\"", b"w0 a E4 at 1 ."),
    (b"\"\"", b"E4 at 0 ."),
    (b"\"\"a\"", b"E4 at 0 ."),
    // symbols
    (b"(),;*+", b"s0 ( s1 ) s2 , s3 ; s4 * s5 + ."),
    (b"<><=>=!=||", b"s0 <> s2 <= s4 >= s6 != s8 || ."),
    (b"<=>", b"s0 <= s2 > ."),
    (b"< = >", b"s0 < s2 = s4 > ."),
    (b"|||", b"s0 || E1 at 2 ."),
    (b"!", b"E1 at 0 ."),
    (b"a?b", b"w0 a E1 at 1 ."),
    // bytes of 128 and above, and of no use
    (b"a\x80", b"w0 a E1 at 1 ."),
    (b"'\xff' \"\x80\"", b"t0 '\xff' q4 \"\x80\" ."),
    (b"--\x80\n/*\xff*/", b"."),
    (b"\x00", b"E1 at 0 ."),
];

#[test]
fn texts_hold_these_tokens(rt: HostRuntime) -> Result<(), Fail> {
    for (text, expected) in TEXTS {
        let told = told(rt.alloc(), text)?;
        assert_eq!(rt; told.as_slice(), expected);
    }
    Ok(())
}

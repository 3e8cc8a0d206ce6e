//! Texts and their tokens, worked out by hand.

use ps_lex::{Lexer, Numeral, Position, Token};
use std::alloc::{AllocError, Global};
use std::test::Fail;

// A word stands in quotes, a symbol by its name, and `V#N` for N digits of value V; behind the
// digits of a decimal number stands how many follow its point.
fn shown(alloc: Global, token: &Token) -> Result<String, Fail> {
    match token {
        Token::Word(letters) => {
            let letters = str::from_utf8(letters.as_slice()).ok().ok_or("letters")?;
            Ok(format!(in alloc; "'{letters}'")?)
        }
        Token::Number(numeral) => Ok(shown_number(alloc, *numeral)?),
        Token::Sign(symbol) => Ok(format!(in alloc; "{symbol:?}")?),
    }
}

fn shown_number(alloc: Global, numeral: Numeral) -> Result<String, AllocError> {
    match numeral {
        Numeral::Whole(digits) => format!(in alloc; "{}#{}", digits.value, digits.count),
        Numeral::Quotient { over, under } => {
            format!(in alloc;
                "{}#{}/{}#{}",
                over.value, over.count, under.value, under.count
            )
        }
        Numeral::Decimal { all, decimals } => {
            format!(in alloc; "{}#{}.{}", all.value, all.count, decimals)
        }
    }
}

// Adds what begins at a place.
fn tell(alloc: Global, told: &mut String, place: Position, what: &str) -> Result<(), AllocError> {
    let space = if told.is_empty() { "" } else { " " };
    let text = format!(in alloc; "{space}{}:{} {what}", place.line, place.column)?;
    told.push_str(&text)
}

fn take(alloc: Global, lexer: &mut Lexer, byte: u8, told: &mut String) -> Result<(), Fail> {
    let here = lexer.here();
    if here.offset > 1000 || here.line > 1000 || here.column > 1000 {
        return Err("a long text".into());
    }
    let began = lexer.began();
    if let Some(token) = lexer.take(byte) {
        tell(alloc, told, began, &shown(alloc, &token)?)?;
    }
    Ok(())
}

// Takes a text, up to a place where no token begins.
fn take_all(alloc: Global, lexer: &mut Lexer, text: &str, told: &mut String) -> Result<(), Fail> {
    for &byte in text.as_bytes() {
        take(alloc, lexer, byte, told)?;
        if lexer.bad().is_some() {
            break;
        }
    }
    Ok(())
}

// What is told of a text: each token with the line and the column where it begins, and the place
// where none begins.
fn tokens_of(alloc: Global, text: &str) -> Result<String, Fail> {
    let mut lexer = Lexer::new();
    let mut told = String::new(alloc);
    take_all(alloc, &mut lexer, text, &mut told)?;
    let began = lexer.began();
    let bad = lexer.last_bad();
    if let Some(token) = lexer.finish() {
        tell(alloc, &mut told, began, &shown(alloc, &token)?)?;
    }
    if let Some(place) = bad {
        tell(alloc, &mut told, place, "bad")?;
    }
    Ok(told)
}

const SYMBOLS: [(&str, &str); 22] = [
    ("", ""),
    ("()[", "1:1 Open 1:2 Close 1:3 OpenBracket"),
    ("],;", "1:1 CloseBracket 1:2 Comma 1:3 Semicolon"),
    ("!&|=", "1:1 Bang 1:2 Ampersand 1:3 Bar 1:4 Equals"),
    ("a->b-", "1:1 'a' 1:2 Arrow 1:4 'b' 1:5 Minus"),
    ("-->", "1:1 Minus 1:2 Arrow"),
    ("+-1", "1:1 Plus 1:2 Minus 1:3 1#1"),
    ("( - >", "1:1 Open 1:3 Minus 1:5 bad"),
    ("a<->b", "1:1 'a' 1:2 DoubleArrow 1:5 'b'"),
    ("a<-b", "1:1 'a' 1:2 bad"),
    ("a <-", "1:1 'a' 1:3 bad"),
    ("a<- >", "1:1 'a' 1:2 bad"),
    ("a\n<", "1:1 'a' 2:1 bad"),
    ("<<=", "1:1 bad"),
    (
        "<=>=<->",
        "1:1 LessEquals 1:3 GreaterEquals 1:5 DoubleArrow",
    ),
    ("=>=", "1:1 Equals 1:2 GreaterEquals"),
    (">", "1:1 bad"),
    ("!> =", "1:1 Bang 1:2 bad"),
    ("(@)", "1:1 Open 1:2 bad"),
    ("a@b", "1:1 'a' 1:2 bad"),
    ("aé", "1:1 'a' 1:2 bad"),
    (".5", "1:1 bad"),
];

const NUMBERS: [(&str, &str); 22] = [
    ("1", "1:1 1#1"),
    ("1/2", "1:1 1#1/2#1"),
    ("1/", "1:1 1#1 1:2 bad"),
    (" 1/x", "1:2 1#1 1:3 bad"),
    ("1 /2", "1:1 1#1 1:3 bad"),
    ("1/2/3", "1:1 1#1/2#1 1:4 bad"),
    ("1/2.5", "1:1 1#1/2#1 1:4 bad"),
    ("1.5", "1:1 15#2.1"),
    ("1.", "1:1 1#1 1:2 bad"),
    ("12.x", "1:1 12#2 1:3 bad"),
    ("1.\n5", "1:1 1#1 1:2 bad"),
    ("1.5/2", "1:1 15#2.1 1:4 bad"),
    ("12ab", "1:1 12#2 1:3 'ab'"),
    ("3@", "1:1 3#1 1:2 bad"),
    ("1-2", "1:1 1#1 1:2 Minus 1:3 2#1"),
    ("007 0/00 0.50", "1:1 7#3 1:5 0#1/0#2 1:10 50#3.2"),
    ("1000000 1000001", "1:1 1000000#7 1:9 1000001#7"),
    (
        "1000000000000 1000000000002",
        "1:1 1000000000000#7 1:15 1000000000001#7",
    ),
    ("123456789012345678901234567890", "1:1 1000000000001#7"),
    ("1/00000000002", "1:1 1#1/2#7"),
    ("0.123456 0.1234567", "1:1 123456#7.6 1:10 1234567#7.7"),
    ("0.00000001", "1:1 1#7.7"),
];

const WORDS: [(&str, &str); 19] = [
    ("Rain_2 z9__ P", "1:1 'Rain_2' 1:8 'z9__' 1:13 'P'"),
    ("_a", "1:1 bad"),
    (
        "(abcdefghijklmnopqrstuvwxyzABCDEF)",
        "1:1 Open 1:2 'abcdefghijklmnopqrstuvwxyzABCDEF' 1:34 Close",
    ),
    (
        "abcdefghijklmnopqrstuvwxyzABCDEFG",
        "1:1 'abcdefghijklmnopqrstuvwxyzABCDEFG'",
    ),
    (
        "abcdefghijklmnopqrstuvwxyzABCDEFGHIJKLMN;",
        "1:1 'abcdefghijklmnopqrstuvwxyzABCDEFG' 1:41 Semicolon",
    ),
    (" \t\r\n", ""),
    ("\ta\t\tb", "1:2 'a' 1:5 'b'"),
    ("a\r\nb\rc", "1:1 'a' 2:1 'b' 2:3 'c'"),
    ("a\n\n  b\n(", "1:1 'a' 3:3 'b' 4:1 Open"),
    ("1\n2", "1:1 1#1 2:1 2#1"),
    ("a\x0cb", "1:1 'a' 1:2 bad"),
    ("#", ""),
    ("# a @ ->", ""),
    ("a#b c\nd", "1:1 'a' 2:1 'd'"),
    ("1#2\r3\n\n;", "1:1 1#1 3:1 Semicolon"),
    ("##\n#\n@", "3:1 bad"),
    ("a -# >\n>", "1:1 'a' 1:3 Minus 2:1 bad"),
    (
        "psat 1;\nP(a given !b) in [1/3, 0.5];",
        "1:1 'psat' 1:6 1#1 1:7 Semicolon 2:1 'P' 2:2 Open 2:3 'a' 2:5 'given' 2:11 Bang 2:12 'b' 2:13 Close 2:15 'in' 2:18 OpenBracket 2:19 1#1/3#1 2:22 Comma 2:24 5#2.1 2:27 CloseBracket 2:28 Semicolon",
    ),
    (
        "query P(a|b<->!c) # all\n; end;",
        "1:1 'query' 1:7 'P' 1:8 Open 1:9 'a' 1:10 Bar 1:11 'b' 1:12 DoubleArrow 1:15 Bang 1:16 'c' 1:17 Close 2:1 Semicolon 2:3 'end' 2:6 Semicolon",
    ),
];

// Where the token began that isn't whole, and where the next byte stands.
const PLACES: [(&str, (u32, u32), (u32, u32)); 5] = [
    ("", (1, 1), (1, 1)),
    ("ab", (1, 1), (1, 3)),
    ("ab c", (1, 4), (1, 5)),
    ("a\n\t12/", (2, 2), (2, 5)),
    ("a\r\n\n<", (3, 1), (3, 2)),
];

// What is left behind the blanks and comments at the front, and where it stands.
const PASSED: [(&str, &str, (u32, u32)); 9] = [
    ("", "", (1, 1)),
    ("a b", "a b", (1, 1)),
    ("@ a", "@ a", (1, 1)),
    ("   ;", ";", (1, 4)),
    (" \t\r\n  a # b", "a # b", (2, 3)),
    ("# a; @\n##\n\n(", "(", (4, 1)),
    (" #\r \n\r/", "/", (2, 2)),
    ("# a", "", (1, 4)),
    ("\n \n  ", "", (3, 3)),
];

fn all_are_passed() -> Result<bool, Fail> {
    for (text, expected, here) in PASSED {
        if text.len() > 1000 {
            return Err("a long text".into());
        }
        let mut lexer = Lexer::new();
        let left = lexer.pass(text.as_bytes());
        if left != expected.as_bytes() || (lexer.here().line, lexer.here().column) != here {
            return Ok(false);
        }
    }
    Ok(true)
}

// Texts, the word at the front, what is left behind it, and its column.
const RESTS: [(&[u8], &[u8], &[u8], u32); 5] = [
    (b"a", b"a", b"", 2),
    (b"ab_9Z c", b"ab_9Z", b" c", 6),
    (b"P(a)", b"P", b"(a)", 2),
    (
        b"abcdefghijklmnopqrstuvwxyzABCDEF;",
        b"abcdefghijklmnopqrstuvwxyzABCDEF",
        b";",
        33,
    ),
    (
        b"abcdefghijklmnopqrstuvwxyzABCDEFGHI\n",
        b"abcdefghijklmnopqrstuvwxyzABCDEFG",
        b"\n",
        36,
    ),
];

// Whether behind the first byte the rest of a word is passed, up to what is left at a column.
fn is_passed(text: &[u8], word: &[u8], left: &[u8], column: u32) -> Result<bool, Fail> {
    let mut lexer = Lexer::new();
    let more = match text {
        [byte, more @ ..] => {
            let _ = lexer.take(*byte);
            more
        }
        _ => return Ok(false),
    };
    let here = lexer.here();
    if here.offset > 1000 || here.line > 1000 || here.column > 1000 || more.len() > 1000 {
        return Err("a long text".into());
    }
    if lexer.pass(more) != left || lexer.here().column != column {
        return Ok(false);
    }
    match lexer.finish() {
        Some(Token::Word(letters)) => Ok(letters.as_slice() == word),
        _ => Ok(false),
    }
}

fn all_rests_are_passed() -> Result<bool, Fail> {
    for (text, word, left, column) in RESTS {
        if !is_passed(text, word, left, column)? {
            return Ok(false);
        }
    }
    Ok(true)
}

fn all_are_told(alloc: Global, cases: &[(&str, &str)]) -> Result<bool, Fail> {
    for (text, tokens) in cases {
        if tokens_of(alloc, text)?.as_str() != *tokens {
            return Ok(false);
        }
    }
    Ok(true)
}

fn all_stand(alloc: Global) -> Result<bool, Fail> {
    for (text, began, here) in PLACES {
        let mut lexer = Lexer::new();
        take_all(alloc, &mut lexer, text, &mut String::new(alloc))?;
        let is_begun = (lexer.began().line, lexer.began().column) == began;
        if !is_begun || (lexer.here().line, lexer.here().column) != here {
            return Ok(false);
        }
    }
    Ok(true)
}

#[test]
fn tokens_are_told(rt: HostRuntime) -> Result<(), Fail> {
    assert!(rt; all_are_told(rt.alloc(), &SYMBOLS)?);
    assert!(rt; all_are_told(rt.alloc(), &NUMBERS)?);
    assert!(rt; all_are_told(rt.alloc(), &WORDS)?);
    Ok(())
}

#[test]
fn places_are_told(rt: HostRuntime) -> Result<(), Fail> {
    assert!(rt; all_stand(rt.alloc())?);
    Ok(())
}

#[test]
fn blanks_and_comments_are_passed(rt: HostRuntime) -> Result<(), Fail> {
    assert!(rt; all_are_passed()?);
    Ok(())
}

#[test]
fn rests_of_words_are_passed(rt: HostRuntime) -> Result<(), Fail> {
    assert!(rt; all_rests_are_passed()?);
    Ok(())
}

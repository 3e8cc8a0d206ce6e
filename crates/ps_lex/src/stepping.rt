//! One more byte.
ghost use Rattle.std.specs.Prelude.{◌≡◌, ◌≤◌, Some};
ghost use Rattle.ps_lex.specs.Lexing.{begun, symbol_begun, ended, continued, whole, stepped_in};
ghost use Rattle.ps_lex.specs.Lexing.{slash_followed, point_followed, symbol_followed};
ghost use Rattle.ps_lex.specs.Lexing.{IsCappedMode};
ghost use Rattle.ps_lex.specs.Counted.{IsCapped};
ghost use Rattle.ps_lex.specs.declared.digits.TheConstants.{MANY_DIGITS};

use crate::bytes::{is_blank, is_digit, is_letter, is_word_byte};
use crate::digits::MANY_DIGITS;
use crate::mode::Mode;
use crate::step::Step;
use crate::{Digits, Numeral, Position, Token, Word};
use ps_text::Symbol;

// The mode behind a symbol's first byte.
#[inline(always)]
fn begin_symbol(here: Position, byte: u8) -> Mode
    ensures { result ≡ symbol_begun here byte }
{
    match byte {
        b'(' => Mode::Sign(Symbol::Open),
        b')' => Mode::Sign(Symbol::Close),
        b'[' => Mode::Sign(Symbol::OpenBracket),
        b']' => Mode::Sign(Symbol::CloseBracket),
        b',' => Mode::Sign(Symbol::Comma),
        b';' => Mode::Sign(Symbol::Semicolon),
        b'!' => Mode::Sign(Symbol::Bang),
        b'&' => Mode::Sign(Symbol::Ampersand),
        b'|' => Mode::Sign(Symbol::Bar),
        b'=' => Mode::Sign(Symbol::Equals),
        b'+' => Mode::Sign(Symbol::Plus),
        b'-' => Mode::Minus,
        b'<' => Mode::Less,
        b'>' => Mode::Greater,
        _ => Mode::Bad(here),
    }
}

/// The mode behind a byte that stands outside of tokens, or begins one.
#[inline(always)]
#[tactic(auto, unfolding(crate::specs::Lexing::begun))]
pub(crate) fn begin(here: Position, byte: u8) -> Mode
    ensures mode { result ≡ begun here byte }
    ensures capped { IsCappedMode result }
{
    if is_blank(byte) {
        return Mode::Between;
    }
    if byte == b'#' {
        return Mode::Comment;
    }
    if is_letter(byte) {
        let mut letters = Word::empty();
        letters.push(byte);
        return Mode::Word(letters);
    }
    if is_digit(byte) {
        return Mode::Whole(Digits::none().with(byte));
    }
    begin_symbol(here, byte)
}

// A token ends before the byte.
fn end(token: Token, here: Position, byte: u8) -> Step
    ensures step { result ≡ ended token here byte }
    ensures capped { IsCappedMode result.mode }
{
    let mode = begin(here, byte);
    Step {
        mode,
        began: here,
        ended: Some(token),
    }
}

// The byte belongs to what is begun.
fn go_on(mode: Mode, began: Position) -> Step
    requires capped { IsCappedMode mode }
    ensures step { result ≡ continued mode began }
    ensures capped { IsCappedMode result.mode }
{
    Step {
        mode,
        began,
        ended: None,
    }
}

// The token ends before a byte that no token begins with.
fn end_before_bad(token: Token, began: Position, bad: Position) -> Step
    ensures step { result ≡ record { mode = Mode.Bad bad; began = began; ended = Some token } }
    ensures capped { IsCappedMode result.mode }
{
    Step {
        mode: Mode::Bad(bad),
        began,
        ended: Some(token),
    }
}

fn step_word(letters: Word, began: Position, here: Position, byte: u8) -> Step
    requires capped { IsCappedMode (Mode.Word letters) }
    ensures step { result ≡ stepped_in (Mode.Word letters) began here byte }
    ensures capped { IsCappedMode result.mode }
{
    if !is_word_byte(byte) {
        return end(Token::Word(letters), here, byte);
    }
    let mut letters = letters;
    letters.push(byte);
    go_on(Mode::Word(letters), began)
}

fn step_whole(digits: Digits, began: Position, here: Position, byte: u8) -> Step
    requires capped { IsCapped digits }
    ensures step { result ≡ stepped_in (Mode.Whole digits) began here byte }
    ensures capped { IsCappedMode result.mode }
{
    if is_digit(byte) {
        return go_on(Mode::Whole(digits.with(byte)), began);
    }
    match byte {
        b'/' => go_on(
            Mode::Slash {
                over: digits,
                slash: here,
            },
            began,
        ),
        b'.' => go_on(
            Mode::Point {
                whole: digits,
                point: here,
            },
            began,
        ),
        _ => end(Token::Number(Numeral::Whole(digits)), here, byte),
    }
}

fn step_slash(over: Digits, slash: Position, began: Position, byte: u8) -> Step
    requires capped { IsCapped over }
    ensures step { result ≡ slash_followed over slash began byte }
    ensures capped { IsCappedMode result.mode }
{
    if is_digit(byte) {
        let under = Digits::none().with(byte);
        return go_on(Mode::Quotient { over, under }, began);
    }
    end_before_bad(Token::Number(Numeral::Whole(over)), began, slash)
}

fn step_quotient(over: Digits, under: Digits, began: Position, here: Position, byte: u8) -> Step
    requires over { IsCapped over }
    requires under { IsCapped under }
    ensures step { result ≡ stepped_in (Mode.Quotient over under) began here byte }
    ensures capped { IsCappedMode result.mode }
{
    if is_digit(byte) {
        let under = under.with(byte);
        return go_on(Mode::Quotient { over, under }, began);
    }
    end(Token::Number(Numeral::Quotient { over, under }), here, byte)
}

fn step_point(whole: Digits, point: Position, began: Position, byte: u8) -> Step
    requires capped { IsCapped whole }
    ensures step { result ≡ point_followed whole point began byte }
    ensures capped { IsCappedMode result.mode }
{
    if is_digit(byte) {
        let all = whole.with(byte);
        return go_on(Mode::Decimal { all, decimals: 1 }, began);
    }
    end_before_bad(Token::Number(Numeral::Whole(whole)), began, point)
}

fn step_decimal(all: Digits, decimals: u8, began: Position, here: Position, byte: u8) -> Step
    requires all { IsCapped all }
    requires decimals { decimals ≤ MANY_DIGITS }
    ensures step { result ≡ stepped_in (Mode.Decimal all decimals) began here byte }
    ensures capped { IsCappedMode result.mode }
{
    if is_digit(byte) {
        let all = all.with(byte);
        let decimals = (decimals + 1).min(MANY_DIGITS);
        return go_on(Mode::Decimal { all, decimals }, began);
    }
    end(
        Token::Number(Numeral::Decimal { all, decimals }),
        here,
        byte,
    )
}

// A `-` goes on with a `>`, or else is a symbol of its own.
fn step_minus(began: Position, here: Position, byte: u8) -> Step
    ensures step { result ≡ stepped_in Mode.Minus began here byte }
    ensures capped { IsCappedMode result.mode }
{
    if byte == b'>' {
        return go_on(Mode::Sign(Symbol::Arrow), began);
    }
    end(Token::Sign(Symbol::Minus), here, byte)
}

// The mode behind the second or third byte of a symbol; where it doesn't fit, no token begins at the
// first.
fn follow_symbol(mode: Mode, began: Position, byte: u8) -> Mode
    ensures mode { result ≡ symbol_followed mode began byte }
    ensures capped { IsCappedMode result }
{
    match (mode, byte) {
        (Mode::Less, b'=') => Mode::Sign(Symbol::LessEquals),
        (Mode::Less, b'-') => Mode::LessMinus,
        (Mode::LessMinus, b'>') => Mode::Sign(Symbol::DoubleArrow),
        (Mode::Greater, b'=') => Mode::Sign(Symbol::GreaterEquals),
        _ => Mode::Bad(began),
    }
}

/// What one more byte does.
pub(crate) fn step(mode: Mode, began: Position, here: Position, byte: u8) -> Step
    requires capped { IsCappedMode mode }
    ensures step { result ≡ stepped_in mode began here byte }
    ensures capped { IsCappedMode result.mode }
{
    match mode {
        Mode::Between => {
            let mode = begin(here, byte);
            go_on(mode, here)
        }
        Mode::Comment => {
            let mode = if byte == b'\n' {
                Mode::Between
            } else {
                Mode::Comment
            };
            go_on(mode, began)
        }
        Mode::Word(letters) => step_word(letters, began, here, byte),
        Mode::Whole(digits) => step_whole(digits, began, here, byte),
        Mode::Slash { over, slash } => step_slash(over, slash, began, byte),
        Mode::Quotient { over, under } => step_quotient(over, under, began, here, byte),
        Mode::Point { whole, point } => step_point(whole, point, began, byte),
        Mode::Decimal { all, decimals } => step_decimal(all, decimals, began, here, byte),
        Mode::Minus => step_minus(began, here, byte),
        Mode::Sign(symbol) => end(Token::Sign(symbol), here, byte),
        Mode::Bad(place) => go_on(Mode::Bad(place), began),
        mode => {
            let next = follow_symbol(mode, began, byte);
            go_on(next, began)
        }
    }
}

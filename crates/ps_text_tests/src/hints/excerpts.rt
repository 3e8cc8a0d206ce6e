//! Lines and carets below them.
use super::message;
use ps_hints::refusal_message;
use ps_read::{ReadKind, What};
use std::test::*;

#[test]
fn the_caret_stands_below_tabs_and_wide_letters(rt: HostRuntime) -> Result<(), Fail> {
    // Eight bytes stand before the place: a tab, a wide letter of three, a letter with an accent, which has two, and
    // two more.
    let text = "\t漢é a\n".as_bytes();
    let kind = ReadKind::Expected(What::Semicolon);
    let told = refusal_message(rt.alloc(), "f", text, kind, 1, 8)?;
    assert!(rt;
        told.as_str()
            == "f:1:8: found `a`, expected `;`
  \t漢é a
  \t    ^
  hint: end each sentence and each query with ;
"
    );
    Ok(())
}

#[test]
fn nothing_that_moves_the_cursor_is_shown(rt: HostRuntime) -> Result<(), Fail> {
    let text = b"psat 1; # \x1b[2J\x07\xff\xfe\xc2\x9b31m\xe2\x80\xae\n";
    let told = refusal_message(
        rt.alloc(),
        "a\x1b[1m\nb",
        text,
        ReadKind::MoreAfterEnd,
        1,
        1,
    )?;
    assert!(rt;
        told.as_str()
            == "a?[1m?b:1:1: found `psat`, expected nothing behind `end;`
  psat 1; # ?[2J????31m?
  ^
  hint: nothing but comments may stand behind end;
"
    );
    Ok(())
}

#[test]
fn long_lines_are_cut_on_both_sides(rt: HostRuntime) -> Result<(), Fail> {
    let mut text = String::from_str(rt.alloc(), "psat 1; P(a) = 1; #")?;
    for _letter in 0..100 {
        text.push_str("x")?;
    }
    text.push_str("\nP(abcdefghijklmnopqrstuvwxyz & ABCDEFGHIJKLMNOPQRSTUVWXYZ &  and")?;
    text.push_str(" abcdefghijklmnopqrstuvwxyz | ABCDEFGHIJKLMNOPQRSTUVWXYZ) = 1; end;")?;
    let told = message(rt.alloc(), text.as_bytes()).expect(&rt, "a message");
    assert!(rt;
        told.as_str()
            == "f:2:66: found `abcdefghijklmnopqrstuvwxyz`, expected `&`, `|`, `->`, `<->`, `given` or `)`
  ...pqrstuvwxyz & ABCDEFGHIJKLMNOPQRSTUVWXYZ &  and abcdefghijklmnopqrstuvwxyz | ABCDEFGHIJKLMNOPQRS...
                                                     ^
  hint: write &, |, -> or <-> between two formulas, and a name without blanks
"
    );
    Ok(())
}

#[test]
fn long_words_are_cut(rt: HostRuntime) -> Result<(), Fail> {
    let text = b"psat 1;\n012345678901234567890123456789012345678901 = 1;\nend;\n";
    let told = message(rt.alloc(), text).expect(&rt, "a message");
    assert!(rt;
        told.as_str()
            == "f:2:1: found `0123456789012345678901234567890123456789...`, expected `P`, `query` or `end`
  012345678901234567890123456789012345678901 = 1;
  ^
  hint: begin a sentence with P(, and a query with query P(
"
    );
    Ok(())
}

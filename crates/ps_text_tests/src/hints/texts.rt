//! Messages about whole texts: their begin, their end, their lines and their counts.
use super::{is_told, message};
use ps_io::NoMemory;
use std::alloc::Global;
use std::test::*;

#[test]
fn an_empty_text(rt: HostRuntime) -> Result<(), Fail> {
    let told = "f:1:1: found the end of the text, expected more, up to `end;`
  hint: the text is empty: a problem begins with psat 1; and ends with end;
";
    assert!(rt; is_told(rt.alloc(), b"", told));
    assert!(rt; is_told(rt.alloc(), b"\n\n", told));
    Ok(())
}

#[test]
fn a_byte_order_mark(rt: HostRuntime) -> Result<(), Fail> {
    let told = "f:1:1: found U+FEFF, expected a word, a number or a sign
  ?psat 1; end;
  ^
  hint: a byte-order mark stands at the front: save the file without it
";
    assert!(rt; is_told(rt.alloc(), b"\xef\xbb\xbfpsat 1; end;", told));
    Ok(())
}

#[test]
fn a_missing_version(rt: HostRuntime) -> Result<(), Fail> {
    let told = "f:2:1: found `P`, expected `psat 1;` or `psat 2;`
  P(a) = 1;
  ^
  hint: a problem begins with psat 1; or psat 2;
";
    assert!(rt; is_told(rt.alloc(), b"# so\nP(a) = 1;\nend;\n", told));
    Ok(())
}

#[test]
fn another_version(rt: HostRuntime) -> Result<(), Fail> {
    let told = "f:1:6: found `3`, expected the version 1 or 2
  psat 3;
       ^
  hint: a problem begins with psat 1; or psat 2;
";
    assert!(rt; is_told(rt.alloc(), b"psat 3;\nend;\n", told));
    Ok(())
}

#[test]
fn a_missing_end_is_shown_behind_the_last_item(rt: HostRuntime) -> Result<(), Fail> {
    let told = "f:2:10: found the end of the text, expected more, up to `end;`
  P(a) = 1; # so
           ^
  hint: a problem ends with end;
";
    assert!(rt; is_told(rt.alloc(), b"psat 1;\nP(a) = 1; # so\n\n", told));
    Ok(())
}

#[test]
fn more_behind_the_end(rt: HostRuntime) -> Result<(), Fail> {
    let told = "f:2:1: found `query`, expected nothing behind `end;`
  query P(a);
  ^
  hint: nothing but comments may stand behind end;
";
    assert!(rt; is_told(rt.alloc(), b"psat 1; end;\nquery P(a);\n", told));
    Ok(())
}

#[test]
fn a_missing_semicolon_is_shown_where_the_item_ends(rt: HostRuntime) -> Result<(), Fail> {
    let told = "f:2:9: found the end of the line, expected `;`
  P(a) = 1 # so; it is
          ^
  hint: end each sentence and each query with ;
";
    let text = b"psat 1;\r\nP(a) = 1 # so; it is\r\n\r\n  P(b) = 1;\r\nend;\r\n";
    assert!(rt; is_told(rt.alloc(), text, told));
    Ok(())
}

// Adds an item with a number in place of each `#`.
fn push_item(text: &mut String, item: &str, number: usize) -> Result<(), NoMemory> {
    let mut digits = itoa::Buffer::new();
    for c in item.chars() {
        if c == '#' {
            text.push_str(digits.format(number))?;
        } else {
            text.push(c)?;
        }
    }
    Ok(())
}

// A text with many items like this one, in which a `#` stands for the number of the item.
fn with_many(alloc: Global, item: &str, count: usize) -> Result<String, NoMemory> {
    let mut text = String::from_str(alloc, "psat 1;\n")?;
    for number in 0..count {
        push_item(&mut text, item, number)?;
    }
    text.push_str("end;\n")?;
    Ok(text)
}

#[test]
fn too_many_atoms(rt: HostRuntime) -> Result<(), Fail> {
    // Each sentence has two names of its own.
    let text = with_many(rt.alloc(), "P(x# & y#) = 1;\n", 65)?;
    let told = "f:66:1: with the atom `x64` there are more than 128 atoms
  P(x64 & y64) = 1;
  ^
  hint: leave out what no query needs
";
    assert!(rt; is_told(rt.alloc(), text.as_bytes(), told));
    Ok(())
}

#[test]
fn too_many_formulas(rt: HostRuntime) -> Result<(), Fail> {
    // Each sentence has 13 formulas of its own, and 79 times 13 is 1027.
    let text = with_many(rt.alloc(), "P(!!!!!!!!!!!!x#) = 1;\n", 79)?;
    let told = "f:80:1: with this there are more than 1024 different formulas
  P(!!!!!!!!!!!!x78) = 1;
  ^
  hint: write a formula the same way each time
";
    assert!(rt; is_told(rt.alloc(), text.as_bytes(), told));
    Ok(())
}

#[test]
fn too_many_bounds(rt: HostRuntime) -> Result<(), Fail> {
    let text = with_many(rt.alloc(), "P(a) = 1;\n", 101)?;
    let told = "f:102:1: with this there are more than 100 bounds
  P(a) = 1;
  ^
  hint: join laws by & in one sentence; an interval counts as two bounds
";
    assert!(rt; is_told(rt.alloc(), text.as_bytes(), told));
    Ok(())
}

#[test]
fn too_many_queries(rt: HostRuntime) -> Result<(), Fail> {
    let text = with_many(rt.alloc(), "query P(a);\n", 17)?;
    let told = "f:18:1: with this there are more than 16 queries
  query P(a);
  ^
  hint: ask in several files
";
    assert!(rt; is_told(rt.alloc(), text.as_bytes(), told));
    Ok(())
}

#[test]
fn too_many_terms(rt: HostRuntime) -> Result<(), Fail> {
    let mut text = String::from_str(rt.alloc(), "psat 2;\n")?;
    for _term in 0..16 {
        text.push_str("P(a)+")?;
    }
    text.push_str("P(b) >= 1;\nend;\n")?;
    // The sixteenth sign is the 80th byte of its line.
    let told = message(rt.alloc(), text.as_bytes()).expect(&rt, "a message");
    assert!(rt;
        told.as_str()
            == "f:2:80: found `+`, expected at most 16 terms in a sentence
  ...(a)+P(a)+P(a)+P(a)+P(a)+P(a)+P(a)+P(a)+P(a)+P(a)+P(b) >= 1;
                                                     ^
  hint: where a and b exclude each other, write P(a | b) for P(a) + P(b)
"
    );
    Ok(())
}

#[test]
fn too_many_nestings(rt: HostRuntime) -> Result<(), Fail> {
    let mut text = String::from_str(rt.alloc(), "psat 1; P(")?;
    for _not in 0..101 {
        text.push_str("!")?;
    }
    text.push_str("a) = 1; end;")?;
    let told = message(rt.alloc(), text.as_bytes()).expect(&rt, "a message");
    // Where the line is long, what stands around the place is shown.
    assert!(rt;
        told.as_str()
            == "f:1:111: found `!`, expected at most 100 open `!`, `(` and `->`
  ...!!!!!!!!!!!!!!!!!!!!!!!!!!!!!!!!!!!!!!!!!!!!!!!!!a) = 1; end;
                                                     ^
  hint: leave out parentheses, or name a part: P(part <-> ..) = 1;
"
    );
    Ok(())
}

//! Messages about what people write from habit.
use super::message;
use super::table::{HABITS, SUMS};
use ps_io::NoMemory;
use std::alloc::Global;
use std::test::*;

// The heads of the two versions.
const ONE: &str = "psat 1;\n";

const TWO: &str = "psat 2;\n";

// Whether the message about a text with this line says so, or there is none.
fn says(alloc: Global, head: &str, line: &str, so: Option<&str>) -> Result<bool, NoMemory> {
    let mut text = String::from_str(alloc, head)?;
    text.push_str(line)?;
    text.push_str("\nend;\n")?;
    Ok(match (message(alloc, text.as_bytes()), so) {
        (Some(message), Some(so)) => message.as_str().contains(so),
        (None, None) => true,
        _ => false,
    })
}

// The first line about which the message doesn't say so.
fn first_wrong(alloc: Global, head: &str) -> &'static str {
    for habit in &HABITS {
        if says(alloc, head, habit.line, Some(habit.says)) != Ok(true) {
            return habit.line;
        }
    }
    "none"
}

#[test]
fn habits_have_hints(rt: HostRuntime) -> Result<(), Fail> {
    assert!(rt; first_wrong(rt.alloc(), ONE) == "none");
    assert!(rt; first_wrong(rt.alloc(), TWO) == "none");
    Ok(())
}

// The first sum about which the message doesn't say so.
fn first_wrong_sum(alloc: Global) -> &'static str {
    for sum in &SUMS {
        if says(alloc, ONE, sum.line, Some(sum.one)) != Ok(true)
            || says(alloc, TWO, sum.line, sum.two) != Ok(true)
        {
            return sum.line;
        }
    }
    "none"
}

#[test]
fn sums_lead_to_what_is_meant(rt: HostRuntime) -> Result<(), Fail> {
    assert!(rt; first_wrong_sum(rt.alloc()) == "none");
    Ok(())
}

// A text whose message says so.
struct Whole {
    bytes: &'static [u8],
    says: &'static str,
}

const WHOLE: [Whole; 5] = [
    Whole {
        bytes: b"\xff\xfep\0s\0a\0t\0 \x001\0;\0",
        says: "save the file as UTF-8",
    },
    Whole {
        bytes: b"\xfe\xff\0p\0s\0a\0t\0 \x001\0;",
        says: "save the file as UTF-8",
    },
    Whole {
        bytes: b"p\0s\0a\0t\0 \x001\0;\0",
        says: "save the file as UTF-8",
    },
    Whole {
        bytes: b"\0p\0s\0a\0t\0 \x001\0;",
        says: "save the file as UTF-8",
    },
    Whole {
        bytes: b"psat 1;\r# a note\rP(a) = 1;\rend;\r",
        says: "save the file with line feeds",
    },
];

// Whether the message about each of these says so.
fn all_say_so(alloc: Global) -> bool {
    WHOLE.iter().all(|whole| match message(alloc, whole.bytes) {
        Some(message) => message.as_str().contains(whole.says),
        None => false,
    })
}

#[test]
fn other_encodings_have_hints(rt: HostRuntime) -> Result<(), Fail> {
    assert!(rt; all_say_so(rt.alloc()));
    Ok(())
}

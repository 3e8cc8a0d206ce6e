//! Warnings.
use ps_hints::{KINDS, Wanted, WarningKind, warnings_about, write_warning_lines};
use ps_read::read_whole;
use std::alloc::Global;
use std::test::*;

// A problem and the lines of its warnings.
struct Row {
    text: &'static str,
    lines: &'static str,
}

// The lines of the warnings about a problem.
fn lines(alloc: Global, text: &[u8], wanted: Wanted) -> Option<Vec<u8>> {
    if text.len() >= 1_000_000 {
        return None;
    }
    let problem = read_whole(alloc, text).ok()?;
    let list = warnings_about(alloc, text, &problem, wanted).ok()?;
    let mut out = Vec::new(alloc);
    write_warning_lines(alloc, &mut out, "f", &list).ok()?;
    Some(out)
}

// Whether the warnings about a problem, of the kinds that are wanted, are these lines.
fn is_warned(alloc: Global, row: &Row, wanted: Wanted) -> bool {
    match lines(alloc, row.text.as_bytes(), wanted) {
        Some(lines) => lines.as_slice() == row.lines.as_bytes(),
        None => false,
    }
}

// The lines that are due for the first row that has others.
fn first_wrong(alloc: Global, rows: &[Row]) -> &'static str {
    match rows
        .iter()
        .find(|row| !is_warned(alloc, row, Wanted::all(true)))
    {
        Some(row) => row.text,
        None => "none",
    }
}

const ROWS: [Row; 10] = [
    // A name in a comment isn't used; an `or` is warned of in a query, and in a sentence that states no law.
    Row {
        text: "psat 1;
P(rain) = 1/2; # rian
P(rain & wind) in [1/2, 1/4];
query P(wind | rain); P(wind | rain) <= 1/3;
query P(rian & wind);
end;
",
        lines: "f:3: warning: P(rain & wind): the ends of the interval are turned round, so nothing meets it
f:4: warning: P(wind | rain): | is \"or\"; for a condition write given
f:4: warning: P(wind | rain): | is \"or\"; for a condition write given
f:5: warning: rian is used once; is rain meant?
",
    },
    // Names that differ in digits alone aren't mistyped, of two that are used once the later one is; and what is
    // asked of atoms in no sentence rests on nothing.
    Row {
        text: "psat 1;
P(x1 & x2) in [1/4, 1/4];
P(pump10 -> pump11) = 1;
P(cat given dog | (bat)) = 1/2;
query P((a | b) & c);
end;
",
        lines: "f:4: warning: bat is used once; is cat meant?
f:5: warning: a stands in no sentence, so nothing is known of it
f:5: warning: b stands in no sentence, so nothing is known of it
f:5: warning: c stands in no sentence, so nothing is known of it
",
    },
    // One `|` at the top is warned of.
    Row {
        text: "psat 1;
P(guard | courier | restorer | stranger) = 1/2;
P((a | b) & c) = 1/2; P(!(a | b) | c) = 1/2;
P(a | (b -> c | d)) = 1/2;
P(dry | wet) = 9/10;
P(!a & b | (c <-> d)) >= 8/10;
end;
",
        lines: "f:5: warning: P(dry | wet): | is \"or\"; for a condition write given
f:6: warning: P(!a & b | (c <-> d)): | is \"or\"; for a condition write given
",
    },
    // It isn't in laws.
    Row {
        text: "psat 1;
P(dry | wet) = 1;
P(dry | hot) >= 9/10;
P(hot | wet) in [0.95, 1];
end;
",
        lines: "",
    },
    // Nor where a `given` shows that conditions are known.
    Row {
        text: "psat 1;
P(defect) >= 1/5;
P(delay given defect) >= 9/10;
P(delay | !range_free) <= 1/20;
end;
",
        lines: "",
    },
    // A sentence that stands twice is one with the same values.
    Row {
        text: "psat 1;
P(a) = 1/2;
P(b given a) in [0.25, 0.5];
P(a) = 0.5; P(a) <= 0.5;
P(b given a) in [1/4, 2/4];
end;
",
        lines: "f:4: warning: P(a): the same sentence stands on line 2
f:5: warning: P(b given a): the same sentence stands on line 3
",
    },
    // Names that differ in a whole part aren't mistyped.
    Row {
        text: "psat 1;
P(valve_a_open & valve_b_open) = 1/2;
P(pump_main | pump_main_a | a_pump_main) = 1/2;
P(north_in & south_in) = 1/2;
end;
",
        lines: "",
    },
    // Names that differ in less are.
    Row {
        text: "psat 1;
P(valve_left_open & valve_lfet_open) = 1/2;
P(pressure & presure_high) = 1/2;
P(presure_hihg) = 1/2;
end;
",
        lines: "f:2: warning: valve_lfet_open is used once; is valve_left_open meant?
f:4: warning: presure_hihg is used once; is presure_high meant?
",
    },
    // Each formula of a sum is looked at, and a sum is told as it stands in the canonical text.
    Row {
        text: "psat 2;
2 P(dry | wet) - P(dry) >= 0;
P(hot) + P(wet) in [1/2, 1/4]; P(hot) + P(wet) in [-1, 1];
P(dry) - P(hot) >= 0;
1 P(dry) - 3/3 P(hot) >= 0.0; query P(hot & fog);
end;
",
        lines: "f:2: warning: P(dry | wet): | is \"or\"; for a condition write given
f:3: warning: 1 P(hot) + 1 P(wet) in [1/2, 1/4]: the ends of the interval are turned round, so nothing meets it
f:5: warning: 1 P(dry) - 1 P(hot) >= 0: the same sentence stands on line 4
f:5: warning: fog stands in no sentence, so nothing is known of it
",
    },
    // The rarer one is blamed, also where it comes first.
    Row {
        text: "psat 1;
P(wether) = 1/2;
P(weather) >= 1/4;
P(weather) <= 3/4;
end;
",
        lines: "f:2: warning: wether is used once; is weather meant?
",
    },
];

#[test]
fn doubtful_problems_have_warnings(rt: HostRuntime) -> Result<(), Fail> {
    assert!(rt; first_wrong(rt.alloc(), &ROWS) == "none");
    Ok(())
}

// A problem with a warning of each kind but that on conditions.
const EACH: &str = "psat 1;
P(dry | wet) = 1/2;
P(dry) in [1/2, 1/4];
P(summer) = 1/2; P(summer) = 1/2;
query P(sumner & sun);
end;
";

// How many lines the warnings about it have.
fn lines_of_each(alloc: Global, wanted: Wanted) -> usize {
    match lines(alloc, EACH.as_bytes(), wanted) {
        Some(lines) => lines.iter().filter(|byte| **byte == b'\n').count(),
        None => 100,
    }
}

// Whether a line less is written without one kind, but for conditions; without names the atom is
// warned of as one in no sentence.
fn each_can_be_left_out(alloc: Global) -> bool {
    KINDS.iter().all(|kind| {
        let lines = lines_of_each(alloc, Wanted::all(true).without(*kind));
        match kind {
            WarningKind::Condition | WarningKind::Name => lines == 5,
            _ => lines == 4,
        }
    })
}

#[test]
fn warnings_can_be_left_out(rt: HostRuntime) -> Result<(), Fail> {
    let alloc = rt.alloc();
    assert!(rt; each_can_be_left_out(alloc) && lines_of_each(alloc, Wanted::all(false)) == 0);
    Ok(())
}

//! Texts and what they are in canonical form, worked out by hand from its definition.
use ps_canonical::canonical_text;
use ps_read::read_whole;
use std::alloc::Global;

const SENTENCES_FIRST: [(&[u8], &[u8]); 1] = [(
    b"psat 1; query P(b); P(!a given b) in [1/4, 1/2]; P(!a) <= 1; end;",
    b"psat 1;\nP(!a given b) in [1/4, 1/2];\nP(!a) <= 1;\nquery P(b);\nend;\n",
)];

const NEEDED: [(&[u8], &[u8]); 5] = [
    (
        b"psat 1; P((a -> a) -> a) = 1; end;",
        b"psat 1;\nP((a -> a) -> a) = 1;\nend;\n",
    ),
    (
        b"psat 1; P(a&(b<->c)) <= 1/3; end;",
        b"psat 1;\nP(a & (b <-> c)) <= 1/3;\nend;\n",
    ),
    (
        b"psat 1; P((a<->b)&c) <= 1/3; end;",
        b"psat 1;\nP((a <-> b) & c) <= 1/3;\nend;\n",
    ),
    (
        b"psat 1; P(a & (b & (c | d))) = 1; end;",
        b"psat 1;\nP(a & (b & (c | d))) = 1;\nend;\n",
    ),
    (
        b"psat 1; P(a <-> (b <-> c)) = 1; end;",
        b"psat 1;\nP(a <-> (b <-> c)) = 1;\nend;\n",
    ),
];

const NOT_NEEDED: [(&[u8], &[u8]); 4] = [
    (
        b"psat 1; P(a <-> (a | !a)) >= 1; end;",
        b"psat 1;\nP(a <-> a | !a) >= 1;\nend;\n",
    ),
    (
        b"psat 1; P(((a & b) & c) | (!((!d)))) = 1; end;",
        b"psat 1;\nP(a & b & c | !!d) = 1;\nend;\n",
    ),
    (
        b"psat 1; P((a <-> b) <-> c) = 1; end;",
        b"psat 1;\nP(a <-> b <-> c) = 1;\nend;\n",
    ),
    (
        b"psat 1; P((true)->((false))) = 1; end;",
        b"psat 1;\nP(true -> false) = 1;\nend;\n",
    ),
];

const ARROWS: [(&[u8], &[u8]); 2] = [
    (
        b"psat 1;P((a)&b->c->!(a|b))=0.50;end;",
        b"psat 1;\nP(a & b -> c -> !(a | b)) = 1/2;\nend;\n",
    ),
    (
        b"psat 1; P(a -> (b -> c)) = 1/2; end;",
        b"psat 1;\nP(a -> b -> c) = 1/2;\nend;\n",
    ),
];

const VALUES: [(&[u8], &[u8]); 3] = [
    (
        b"psat 1; P(a) = 0.250000; P(b) >= 2/4; P(c) <= 007/0010; end;",
        b"psat 1;\nP(a) = 1/4;\nP(b) >= 1/2;\nP(c) <= 7/10;\nend;\n",
    ),
    (
        b"psat 1; P(a) = 0; P(b) = 1; P(a) <= 0.000; P(b) >= 1.0; P(c) = 0/7; P(d) = 3/3; end;",
        b"psat 1;\nP(a) = 0;\nP(b) = 1;\nP(a) <= 0;\nP(b) >= 1;\nP(c) = 0;\nP(d) = 1;\nend;\n",
    ),
    (
        b"psat 1; P(a given (b & !c)) in [0.10, 9/10]; P(a) in [0, 1]; end;",
        b"psat 1;\nP(a given b & !c) in [1/10, 9/10];\nP(a) in [0, 1];\nend;\n",
    ),
];

const QUERIES: [(&[u8], &[u8]); 2] = [
    (
        b"psat 1; # no sentence\nquery P((a) given (b|c)); end;",
        b"psat 1;\nquery P(a given b | c);\nend;\n",
    ),
    (b"psat 1;end; # nothing", b"psat 1;\nend;\n"),
];

const SUMS: [(&[u8], &[u8]); 6] = [
    (
        b"psat 2; -P(a)+2P(b)<=-0.5; end;",
        b"psat 2;\n- 1 P(a) + 2 P(b) <= -1/2;\nend;\n",
    ),
    (
        b"psat 2; query P(a); 1P(a)=1/2; P(b given a) = 1; end;",
        b"psat 2;\n1 P(a) = 1/2;\nP(b given a) = 1;\nquery P(a);\nend;\n",
    ),
    (
        b"psat 2; 6/8 P((a | b)) - 0.5 P(!(c)) in [-1, 0.50]; end;",
        b"psat 2;\n3/4 P(a | b) - 1/2 P(!c) in [-1, 1/2];\nend;\n",
    ),
    (
        b"psat 2; P(a) + P(a) - 10/4 P(b) >= 2/3; end;",
        b"psat 2;\n1 P(a) + 1 P(a) - 5/2 P(b) >= 2/3;\nend;\n",
    ),
    // A 0 has no sign.
    (
        b"psat 2; -0 P(a) - 0/3 P(b) >= -0.0; end;",
        b"psat 2;\n0 P(a) + 0 P(b) >= 0;\nend;\n",
    ),
    // A text without a linear sentence is one of version 1.
    (
        b"psat 2; P(a) = 0.5; query P(a); end;",
        b"psat 1;\nP(a) = 1/2;\nquery P(a);\nend;\n",
    ),
];

// Whether the canonical text of the problem that a text spells is this one.
fn is_canonical(alloc: Global, text: &[u8], expected: &[u8]) -> bool {
    if text.len() > 1000 {
        return false;
    }
    match read_whole(alloc, text) {
        Ok(problem) => match canonical_text(alloc, &problem) {
            Ok(found) => found.as_slice() == expected,
            Err(_) => false,
        },
        Err(_) => false,
    }
}

// Whether each row's text comes to its canonical text, and this comes to itself.
fn are_canonical(alloc: Global, rows: &[(&[u8], &[u8])]) -> bool {
    for row in rows {
        if !is_canonical(alloc, row.0, row.1) || !is_canonical(alloc, row.1, row.1) {
            return false;
        }
    }
    true
}

#[test]
fn sentences_stand_before_queries(rt: HostRuntime) {
    assert!(rt; are_canonical(rt.alloc(), &SENTENCES_FIRST));
}

#[test]
fn needed_parentheses_stand(rt: HostRuntime) {
    assert!(rt; are_canonical(rt.alloc(), &NEEDED));
}

#[test]
fn other_parentheses_go(rt: HostRuntime) {
    assert!(rt; are_canonical(rt.alloc(), &NOT_NEEDED));
}

#[test]
fn arrows_join_to_the_right(rt: HostRuntime) {
    assert!(rt; are_canonical(rt.alloc(), &ARROWS));
}

#[test]
fn values_are_in_lowest_terms(rt: HostRuntime) {
    assert!(rt; are_canonical(rt.alloc(), &VALUES));
}

#[test]
fn terms_have_coefficients(rt: HostRuntime) {
    assert!(rt; are_canonical(rt.alloc(), &SUMS));
}

#[test]
fn queries_keep_their_evidence(rt: HostRuntime) {
    assert!(rt; are_canonical(rt.alloc(), &QUERIES));
}

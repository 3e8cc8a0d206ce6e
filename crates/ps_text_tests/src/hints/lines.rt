//! The lines of sentences and queries.
use ps_hints::{query_lines, sentence_lines};
use std::test::*;

const TEXT: &[u8] = b"psat 1; # P(no) = 1; query P(no);
P(a) = 1; P(b)
  = 1/2;
query
P(a);

# P(c) = 1;
P(c) in [0, 1] # so;
; query P(b);
end; # P(d)
";

#[test]
fn sentences_have_lines(rt: HostRuntime) -> Result<(), Fail> {
    let lines = sentence_lines(rt.alloc(), TEXT)?;
    assert!(rt; lines.as_slice() == [2, 2, 8].as_slice());
    Ok(())
}

const SUMS: &[u8] = b"psat 2; # 2 P(no) = 1;
2 P(a) - 1 P(b) >= 1; # - P(no)
- P(b)
 + 3 P(a) >= 0; 1/2 P(a) = 0;
query P(a); P(b) = 1;
end;
";

#[test]
fn linear_sentences_have_lines(rt: HostRuntime) -> Result<(), Fail> {
    let lines = sentence_lines(rt.alloc(), SUMS)?;
    assert!(rt; lines.as_slice() == [2, 3, 4, 5].as_slice());
    let lines = query_lines(rt.alloc(), SUMS)?;
    assert!(rt; lines.as_slice() == [5].as_slice());
    Ok(())
}

#[test]
fn queries_have_lines(rt: HostRuntime) -> Result<(), Fail> {
    let lines = query_lines(rt.alloc(), TEXT)?;
    assert!(rt; lines.as_slice() == [4, 9].as_slice());
    Ok(())
}

use ps_answer::{LineKind, ReportError};
use ps_reader::read_report;
use std::alloc::Global;

// A report with a verdict, one query and its two sides.
const BOUNDS: &[u8] =
    b"report 1\nconsistent\nmodel 10 3\nw 6 11\nw 1 10\nw 3 00\nt 0\nquery 1\nbounds\nt 0\nlower 3/5\nmodel 10 3\nw 6 11\nw 1 10\nw 3 00\ndual 10 6 1\ny 1 1\ns 5 0 4 3 0\nt 0\nupper 9/10\nmodel 10 3\nw 6 11\nw 1 10\nw 3 01\ndual 10 9 1\ny 0 -1\ns 5 0 4 2 0\nt 0\nend\n";

fn is_read(alloc: Global) -> bool {
    match read_report(alloc, BOUNDS) {
        Ok(answer) => answer.parts.len() == 1,
        Err(_) => false,
    }
}

fn is_at(alloc: Global, bytes: &[u8], kind: LineKind, line: u64) -> bool {
    match read_report(alloc, bytes) {
        Err(
            ReportError::At {
                kind: found,
                line: number,
            },
        ) => found == kind && number == line,
        _ => false,
    }
}

#[test]
fn reports_are_read(rt: HostRuntime) {
    let alloc = rt.alloc();
    assert!(rt; is_read(alloc));
    assert!(rt; is_at(alloc, b"", LineKind::Truncated, 1));
    assert!(rt;
        is_at(
            alloc,
            b"report 1\nopen pivots 0\nt 1\nc 11\nend\nx",
            LineKind::MoreAfterEnd,
            6
        )
    );
    assert!(rt;
        is_at(
            alloc,
            b"report 1\nopen pivots 0\nt 1\nc 11\nend",
            LineKind::Truncated,
            5
        )
    );
    assert!(rt;
        is_at(
            alloc,
            b"report 1\nopen pivots 0\nt 1\nend\n",
            LineKind::BadLine,
            4
        )
    );
}

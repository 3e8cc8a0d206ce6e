//! Writers that fail.
use ps_io::Outlet;
use std::io::{self, ErrorKind, Write};
use std::test::*;

// Fails each write in this way.
#[derive(Drop)]
struct Failing(ErrorKind);

impl Write for Failing {
    fn write(&mut self, _buf: &[u8]) -> io::Result<usize> {
        Err(self.0.into())
    }

    fn flush(&mut self) -> io::Result<()> {
        Ok(())
    }
}

// Whether a reader has gone, by the kind of error of a write.
const ROWS: [(ErrorKind, bool); 3] = [
    (ErrorKind::BrokenPipe, true),
    (ErrorKind::StorageFull, false),
    (ErrorKind::Other, false),
];

fn notes(kind: ErrorKind, has_gone: bool) -> bool {
    let mut outlet = Outlet::new(Failing(kind));
    let before = outlet.has_reader_gone();
    let failed = outlet.write(b"a").is_err();
    failed && !before && outlet.has_reader_gone() == has_gone
}

#[test]
fn readers_that_go_are_noted(rt: HostRuntime) {
    assert!(rt; ROWS.iter().all(|row| notes(row.0, row.1)));
}

//! All bytes into a sink.
ghost use Rattle.std.specs.Prelude.{OnOk, OnErr};
ghost use Rattle.ps_io.specs.Causes.{CountsFault};
ghost use Rattle.ps_io.specs.Transfer.{Appends, AppendsPrefix};

use crate::{Sink, WriteFault};

/// Writes all bytes. After a fault nothing more is written: the sink took a proper prefix of them.
pub fn write_all<O: Sink>(sink: &mut O, bytes: &[u8]) -> Result<(), WriteFault>
    ensures ok { OnOk result (Appends (O.written sink.old) (O.written sink.new) bytes.now) }
    ensures faults { CountsFault result (O.faults sink.old) (O.faults sink.new) }
    ensures err { OnErr result (AppendsPrefix (O.written sink.old) (O.written sink.new) bytes.now) }
{
    let mut at = 0;
    while at < bytes.len() {
        at += sink.write(&bytes[at..])?;
    }
    Ok(())
}

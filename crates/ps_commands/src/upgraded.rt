//! The reply to a problem whose text is to be upgraded.
ghost use Rattle.std.specs.Prelude.{◌≤◌, length, IfOk};
ghost use Rattle.ps_commands.specs.declared.command.TheConstants.{MOST_PROBLEM};
ghost use Rattle.ps_commands.specs.Due.{DueUpgraded};
ghost use Rattle.ps_commands.specs.Replies.{IsShortReply, output_of, reply_status};
ghost use Rattle.ps_commands.specs.Statuses.{EndsUpgrade};

use crate::reply::Reply;
use ps_canonical::upgraded_text;
use ps_io::NoMemory;
use ps_messages::Message;
use ps_read::{ReadError, read_whole};
use std::alloc::Global;

/// The reply to all bytes of a problem: its canonical text as one of version 2.
pub fn reply_to_upgrade(alloc: Global, bytes: &[u8]) -> Result<Reply, NoMemory>
    requires few { length bytes.now ≤ MOST_PROBLEM }
    ensures due { IfOk result (λ r. DueUpgraded bytes.now (output_of r)) }
    ensures status { IfOk result (λ r. EndsUpgrade (reply_status r)) }
    ensures short { IfOk result IsShortReply }
{
    match read_whole(alloc, bytes) {
        Ok(problem) => Ok(Reply::Upgraded(upgraded_text(alloc, &problem)?)),
        Err(ReadError::At { kind, line, column }) => {
            Ok(Reply::Line(Message::unreadable(alloc, kind, line, column)?))
        }
        Err(ReadError::NoMemory) => Err(NoMemory),
    }
}

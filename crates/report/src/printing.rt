//! Pushing the lines of a report.

ghost use Rattle.std.specs.Prelude.{◌≡◌};
ghost use Rattle.report.specs.Printing.{Prints};

use crate::line::Line;
use host_ports::{Host, push_whole};

/// A push to port 0 failed.
#[derive(Clone, Copy, PartialEq, Eq, Debug, Drop)]
pub struct WriteFault;

/// Pushes a line to port 0, as one piece.
pub fn push_line<H: Host>(host: &mut H, line: &Line) -> Result<(), WriteFault>
    ensures { Prints (H.ports host.old) (H.ports host.new) line.now result }
{
    match push_whole(host, 0, line.as_slice()) {
        Ok(()) => Ok(()),
        Err(_) => Err(WriteFault),
    }
}

//! What is pushed to port 0 at once.

ghost use Rattle.report.specs.Printing.{Prints};

use host_ports::{Host, push_whole};
use report::WriteFault;

/// Pushes a text to port 0.
pub fn push_text<H: Host>(host: &mut H, text: &[u8]) -> Result<(), WriteFault>
    ensures { Prints (H.ports host.old) (H.ports host.new) text.now result }
{
    match push_whole(host, 0, text) {
        Ok(()) => Ok(()),
        Err(_) => Err(WriteFault),
    }
}

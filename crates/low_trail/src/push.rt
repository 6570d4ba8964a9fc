//! Pushing the lines of a trail.

ghost use Rattle.std.specs.Prelude.{◌≡◌, ◌++◌, ◌∷◌, []};
ghost use Rattle.std.specs.List.{AllByRecursion};
ghost use Rattle.audit_trail.specs.Lines.{line_text, lines_text, HasLine};
ghost use Rattle.report.specs.Printing.{Prints};

use audit_trail::Entry;
use host_ports::{Host, push_whole};
use report::WriteFault;

/// Pushes the line of an entry, with its line feed, as one piece.
fn push_line<H: Host>(host: &mut H, entry: &Entry) -> Result<(), WriteFault>
    requires { HasLine entry.now }
    ensures { Prints (H.ports host.old) (H.ports host.new) (line_text entry.now ++ 10 ∷ []) result }
{
    let mut line = entry.line();
    line.push('\n');
    match push_whole(host, 0, line.as_str().as_bytes()) {
        Ok(()) => Ok(()),
        Err(_) => Err(WriteFault),
    }
}

/// Pushes the lines of a trail to port 0, each as one piece. It takes no memory.
pub fn push_lines<H: Host>(host: &mut H, entries: &[Entry]) -> Result<(), WriteFault>
    requires { AllByRecursion HasLine entries.now }
    ensures { Prints (H.ports host.old) (H.ports host.new) (lines_text entries.now) result }
{
    for entry in entries {
        push_line(host, entry)?;
    }
    Ok(())
}

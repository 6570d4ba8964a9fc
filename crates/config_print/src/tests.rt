//! A configuration is read, printed and read again.

ghost use Rattle.std.specs.Prelude.{IfOk};
ghost use Rattle.config_text.specs.Valid.{IsValid};

use crate::print_config;
use config_text::{Config, read_config};
use std::alloc::Global;
use std::test::Fail;

/// A text with comments, blank lines, tabs, names of places and hexadecimal numbers.
const TEXT: &str =
    "# all kinds of line\n\tgemkernel  1\nclasses 2\nclass low 0{}/15{} frames 4 pages 4 volume 2\nclass top 3{0,2}/15{} frames 1 pages 1 volume 0\nprocessors 2\ncycle 0 1 1\nrounds 200\nquantum 64\nconsole 100\n\nscript 0 # ping\nset r5 0x1Ff\n@go\nadd r11 r10\njumpl r11 r9 @go\njump @end\n@end\nspawn 1 r2\nhalt\nend # so\nscript 1\njump 0\nend\ngate 1 0 0 3 7\nprocess 1 1 1 4\nevents 0.0*3\t1.1*4\nmix 18446744073709551615 5\nsweep 6\nend";

/// Its configuration, printed.
const PRINTED: &str =
    "gemkernel 1\nclasses 2\nclass low 0{}/15{} frames 4 pages 4 volume 2\nclass top 3{0,2}/15{} frames 1 pages 1 volume 0\nprocessors 2\ncycle 0 1 1\nrounds 200\nquantum 64\nconsole 100\nscript 0\nset r5 511\nadd r11 r10\njumpl r11 r9 1\njump 4\nspawn 1 r2\nhalt\nend\nscript 1\njump 0\nend\ngate 1 0 0 3 7\nprocess 1 1 1 4\nevents 0.0*3\nevents 1.1*4\nmix 18446744073709551615 5\nsweep 6\nend\n";

fn read(alloc: Global, text: &[u8]) -> Result<Config, Fail>
    ensures { IfOk result (λ k. IsValid k) }
{
    if text.len() > 1_048_576 {
        return Err("long")?;
    }
    match read_config(alloc, text) {
        Ok(config) => Ok(config),
        Err(_) => Err("refused")?,
    }
}

#[test]
fn printed_and_read(rt: HostRuntime) -> Result<(), Fail> {
    let alloc = rt.alloc();
    let first = print_config(alloc, &read(alloc, TEXT.as_bytes())?)?;
    assert_eq!(rt; first.as_str(), PRINTED);
    let again = print_config(alloc, &read(alloc, first.as_str().as_bytes())?)?;
    assert_eq!(rt; again.as_str(), PRINTED);
    Ok(())
}

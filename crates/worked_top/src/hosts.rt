//! What no contract says of the hosts: that memory is had, and what the files of the system give and take.

ghost use Rattle.std.specs.Prelude.{◌≡◌, IfOk, vec_len};

use host_ports::{CalmHost, Failed, FileHost, Host, MemoryHost, pull_whole, push_whole};
use std::alloc::{AllocError, Global};
use std::fs;
use std::test::Fail;

/// A case of the host in memory, whose first port is given seven bytes and is to take five: the bytes of one call and of all
/// pushes, the pull and the push that fail (0: none), and what comes.
type Case = (usize, usize, u32, u32, Result<usize, Failed>, &'static [u8]);

const CASES: [Case; 10] = [
    (4096, 100, 0, 0, Ok(7), b"taken"),
    (2, 100, 0, 0, Ok(7), b"taken"),
    (4096, 0, 0, 0, Ok(7), b""),
    (2, 1, 0, 0, Ok(7), b""),
    (1, 1, 0, 0, Ok(7), b"t"),
    (2, 4, 0, 0, Ok(7), b"take"),
    (4096, 100, 1, 0, Err(Failed), b"taken"),
    (4, 100, 2, 0, Err(Failed), b"taken"),
    (4096, 100, 0, 1, Ok(7), b""),
    (2, 100, 0, 3, Ok(7), b"take"),
];

fn five_inputs(alloc: Global) -> Result<Vec<Vec<u8>>, AllocError>
    ensures { IfOk result (λ inputs. vec_len inputs ≡ 5) }
{
    let mut first = Vec::new(alloc);
    first.extend_from_slice(b"abcdefg")?;
    let inputs = vec![in alloc;
        first,
        Vec::new(alloc),
        Vec::new(alloc),
        Vec::new(alloc),
        Vec::new(alloc),
    ]?;
    Ok(inputs)
}

/// The host of a case.
fn host_of(alloc: Global, at: &Case) -> Result<MemoryHost, Fail> {
    if at.0 == 0 {
        return Err(Fail::from("a call that moves bytes"));
    }
    let inputs = five_inputs(alloc)?;
    let failing_pulls = vec![in alloc; at.2]?;
    let failing_pushes = vec![in alloc; at.3]?;
    Ok(MemoryHost::new(alloc, inputs, at.0, at.1, failing_pulls, failing_pushes)?)
}

/// Whether what comes of a case is what is expected.
fn holds(alloc: Global, at: &Case) -> Result<bool, Fail> {
    let mut host = host_of(alloc, at)?;
    let mut buf = [0u8; 16];
    let pulled = pull_whole(&mut host, 0, &mut buf);
    let pushed = push_whole(&mut host, 0, b"taken");
    Ok(pulled == at.4 && pushed.is_ok() == (at.5.len() == 5) && host.taken(0) == at.5)
}

/// The first case that comes otherwise.
fn first_fault(alloc: Global, cases: &[Case]) -> Result<Option<usize>, Fail> {
    for (place, at) in cases.iter().enumerate() {
        if !holds(alloc, at)? {
            return Ok(Some(place));
        }
    }
    Ok(None)
}

#[test]
fn memory_moves_what_it_is_told(rt: HostRuntime) -> Result<(), Fail> {
    assert_eq!(rt; first_fault(rt.alloc(), &CASES)?, None);
    Ok(())
}

#[test]
fn calm_host_gives_all(rt: HostRuntime) -> Result<(), Fail> {
    let mut host = CalmHost::new(five_inputs(rt.alloc())?);
    let mut buf = [0u8; 4];
    assert_eq!(rt; pull_whole(&mut host, 0, &mut buf), Ok(4));
    assert_eq!(rt; &buf, b"abcd");
    assert_eq!(rt; host.push(1, b"dropped"), Ok(7));
    Ok(())
}

#[test]
fn files_are_ports(rt: HostRuntime) -> Result<(), Fail> {
    fs::write(&rt, "volume2.img", "given")?;
    let mut host = FileHost::new(&rt);
    let mut buf = [0u8; 8];
    assert_eq!(rt; pull_whole(&mut host, 2, &mut buf), Ok(5));
    assert_eq!(rt; &buf[..5], b"given".as_slice());
    assert_eq!(rt; pull_whole(&mut host, 3, &mut buf), Err(Failed));
    assert_eq!(rt; push_whole(&mut host, 4, b"taken"), Ok(()));
    let made = fs::read(&rt, "volume4.new")?;
    assert_eq!(rt; made.as_slice(), b"taken".as_slice());
    fs::remove_file(&rt, "volume2.img")?;
    fs::remove_file(&rt, "volume4.new")?;
    Ok(())
}

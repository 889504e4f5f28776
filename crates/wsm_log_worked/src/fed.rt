//! What is taken of some texts, and in how many pieces.

use std::test::Fail;
use wsm_fed::{Broken, Fed, FedFault};

const TEXT: &[u8] = b"from,7\n:a\n::b\nat,2,9\nat,0,9\n:\nat,1,x,y\n:c\nat,1,1";

// All that is taken of a text that comes in pieces of so many bytes, and why no more is.
fn taken(rt: &HostRuntime, text: &[u8], size: usize) -> Result<(Vec<u8>, Option<FedFault>), Fail> {
    let mut fed = Fed::new(rt.alloc(), b"7", 4)?;
    let mut all = Vec::new(rt.alloc());
    for piece in text.chunks(size.max(1)) {
        let mut rest = piece;
        'piece: for _ in 0..100 {
            match fed.take(rest) {
                Ok(Some(left)) => {
                    all.extend_from_slice(fed.lines())?;
                    all.push(b'=')?;
                    all.extend_from_slice(fed.position())?;
                    all.push(b'\n')?;
                    rest = left;
                }
                Ok(None) => break 'piece,
                Err(fault) => return Ok((all, Some(fault))),
            }
        }
    }
    Ok((all, None))
}

#[test]
fn takes_what_an_at_stands_behind(rt: HostRuntime) -> Result<(), Fail> {
    for size in 1..TEXT.len() {
        let (all, fault) = taken(&rt, TEXT, size)?;
        assert_eq!(rt; all.as_slice(), b"a\n:b\n=9\n\n=x,y\n".as_slice());
        assert!(rt; fault.is_none());
    }
    Ok(())
}

#[test]
fn tells_what_breaks_it(rt: HostRuntime) -> Result<(), Fail> {
    let (all, fault) = taken(&rt, b"from,7\n:a\nat,1,8\n:b\nat,2,9\n", 5)?;
    assert_eq!(rt; all.as_slice(), b"a\n=8\n".as_slice());
    assert_eq!(rt; fault, Some(FedFault::Line(5, Broken::Lines(2, 1))));
    let (_, fault) = taken(&rt, b"from,8\n:a\nat,1,8\n", 5)?;
    assert_eq!(rt; fault, Some(FedFault::Other));
    let (_, fault) = taken(&rt, b":a\nat,1,8\n", 5)?;
    assert_eq!(rt; fault, Some(FedFault::Line(1, Broken::NoFrom)));
    let (_, fault) = taken(&rt, b"from,7\nb\n", 5)?;
    assert_eq!(rt; fault, Some(FedFault::Line(2, Broken::NoLine)));
    Ok(())
}

//! Numbered lines whose sums are those of zlib.

use std::test::Fail;
use wsm_numbered::Numbering;

#[test]
fn numbers_lines(rt: HostRuntime) -> Result<(), Fail> {
    let mut numbering = Numbering::new();
    let mut out = Vec::new(rt.alloc());
    numbering.add(b"pane,early,a,0,60,1\n", &mut out)?;
    numbering.add(b"refused,7,BadTag\n", &mut out)?;
    assert_eq!(rt;
        out.as_slice(),
        b"1,101025576,pane,early,a,0,60,1\n2,3409100147,refused,7,BadTag\n".as_slice()
    );
    assert_eq!(rt; numbering.count(), 2);
    assert_eq!(rt; numbering.sum(), 3409100147);
    Ok(())
}

//! Sums whose values are those of zlib.

use wsm_sums::Crc32;

#[test]
fn takes_a_text_in_pieces(rt: HostRuntime) {
    let mut sum = Crc32::new();
    assert_eq!(rt; sum.sum(), 0);
    sum.add(b"1234");
    sum.add(b"56789");
    assert_eq!(rt; sum.sum(), 0xCBF4_3926);
}

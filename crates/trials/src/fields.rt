// Fields of a line.
use text::*;

#[test]
fn cuts_at_each_space(rt: HostRuntime) {
    let mut fields = Fields::new(b"7  fF ");
    assert!(rt; fields.read::<Decimal>() == Some(7));
    assert!(rt; fields.read::<Decimal>() == None);
    assert!(rt; fields.read::<HexByte>() == Some(255));
    assert!(rt; !fields.is_done(), "an empty field follows the last space");
}

#[test]
fn reads_numbers(rt: HostRuntime) {
    assert!(rt; decimal(b"007") == Some(7));
    assert!(rt; decimal(b"0007") == None);
    assert!(rt; hex_word(b"FFFFffff") == Some(0xffff_ffff));
}

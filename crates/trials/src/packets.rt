// Worked examples of heads, packets and delivered words.
use crate::answers::{by, refused};
use packet::*;
use std::test::Fail;

#[test]
fn two_up_then_right(rt: HostRuntime) -> Result<(), Fail> {
    let head = Head::read(0xa000_01b0);
    assert!(rt; head.mode == Mode::Flood);
    let Some(course) = head.route.course() else {
        return Err(Fail::new("the route ends on the way up"));
    };
    assert_eq!(rt; course.ups, 2);
    let Some((side, rest)) = course.sides.split_first() else {
        return Err(Fail::new("no descent"));
    };
    assert!(rt; side == Side::Right);
    assert_eq!(rt; rest.count(), 0);
    let Some(route) = course.route() else {
        return Err(Fail::new("no route"));
    };
    assert_eq!(rt; u16::from(route), 0x1b0);
    assert_eq!(rt; u32::from(head), 0xa000_01b0);
    // a head may be used again
    assert_eq!(rt; u16::from(head.route), 0x1b0);
    Ok(())
}

#[test]
fn packets_checked(rt: HostRuntime) {
    let mut long = [0; 65];
    long[0] = 0x8000_0080;
    long[63] = 0x4000_0000;
    assert!(rt; refused(check(&long[0..1])) == Some(by(6, None)));
    assert!(rt; refused(check(&long)) == Some(by(6, None)));
    assert!(rt; refused(check(&long[0..64])).is_none());
    assert!(rt; refused(check(&[0x8000_0080, 0x4000_0011])).is_none());
    assert!(rt;
        refused(check(&[0x8000_0080, 0, 0xc000_0000, 0x4000_0000])) == Some(by(7, Some(2)))
    );
    assert!(rt; refused(check(&[0x8000_0080, 0x4000_0000, 0x4000_0000])) == Some(by(7, Some(1))));
    assert!(rt; refused(check(&[0x8000_0280, 0x4000_0011])) == Some(by(8, Some(0))));
    assert!(rt; refused(check(&[0x8000_0080, 0x4000_0111])) == Some(by(8, Some(1))));
    // a body at the end, though the head has a reserved bit set
    assert!(rt; refused(check(&[0x8000_0280, 0, 0, 0, 0, 0])) == Some(by(7, Some(5))));
}

// The next packet, as key, class and place.
fn packet(reader: &mut Delivered) -> Option<(u8, u8, usize)> {
    let arrival = reader.next().ok()??;
    Some((arrival.key, arrival.class, arrival.place))
}

#[test]
fn delivered_packets(rt: HostRuntime) {
    let words = [0x2000_0011, 5, 0x4000_0006, 0x7000_0022, 0x8000_0080];
    let mut reader = Delivered::new(&words);
    assert_eq!(rt; packet(&mut reader), Some((0x11, 2, 0)));
    assert_eq!(rt; packet(&mut reader), Some((0x22, 3, 3)));
    // a head stands there, but no tail
    assert!(rt; matches!(reader.next(), Ok(None)));
    assert_eq!(rt; reader.place(), 4);
}

#[test]
fn delivered_faults(rt: HostRuntime) {
    let words = [0x4000_0011, 0x100, 0x8000_0080, 0x4000_0000];
    let mut reader = Delivered::new(&words);
    assert_eq!(rt; packet(&mut reader), Some((0x11, 0, 0)));
    // the head at place 2 comes before the key word's reserved bit at place 1
    assert!(rt; refused(reader.next()) == Some(by(7, Some(2))));
    assert!(rt; refused(reader.next()) == Some(by(7, Some(2))));
    assert_eq!(rt; reader.place(), 1);
    let words = [0x4000_0100];
    let mut reader = Delivered::new(&words);
    assert!(rt; refused(reader.next()) == Some(by(8, Some(0))));
}

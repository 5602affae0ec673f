// Tables, granted and refused.
use packet::Side;
use refusal::WiringFault;
use std::test::Fail;
use wiring::{WiredTree, Wiring};

fn fault(table: &[u8]) -> Option<WiringFault> {
    WiredTree::new(table).err()
}

#[test]
fn a_table_is_asked(rt: HostRuntime) -> Result<(), Fail> {
    let Ok(tree) = WiredTree::new(&[1, 2, 255, 3, 255, 255, 255, 255]) else {
        return Err(Fail::new("refused"));
    };
    assert_eq!(rt; tree.cards(), 4);
    assert_eq!(rt; tree.daughter(0, Side::Left), Some(1));
    assert_eq!(rt; tree.daughter(1, Side::Left), None);
    assert_eq!(rt; tree.daughter(1, Side::Right), Some(3));
    assert_eq!(rt; tree.daughter(32768, Side::Left), None);
    assert!(rt; tree.parent(2) == Some((0, Side::Right)));
    assert!(rt; tree.parent(1) == Some((0, Side::Left)));
    assert!(rt; tree.parent(0).is_none() && tree.parent(4).is_none());
    Ok(())
}

#[test]
fn the_size_is_checked_first(rt: HostRuntime) {
    assert!(rt; fault(&[]) == Some(WiringFault::Size));
    assert!(rt; fault(&[0, 9, 0]) == Some(WiringFault::Size));
    assert!(rt; fault(&[0; 64]) == Some(WiringFault::Size));
    assert!(rt; fault(&[0; 62]) == Some(WiringFault::Broken));
    assert!(rt; fault(&[255, 255]).is_none());
}

#[test]
fn broken_tables_are_refused(rt: HostRuntime) {
    assert!(rt; fault(&[2, 1, 255, 255]) == Some(WiringFault::Broken));
    assert!(rt; fault(&[1, 1, 255, 255]) == Some(WiringFault::Broken));
    assert!(rt; fault(&[255, 255, 255, 255]) == Some(WiringFault::Broken));
    assert!(rt; fault(&[1, 255, 255, 0]) == Some(WiringFault::Broken));
    assert!(rt; fault(&[255, 255, 1, 255]) == Some(WiringFault::Broken));
    assert!(rt; fault(&[1, 254, 255, 255]) == Some(WiringFault::Broken));
}

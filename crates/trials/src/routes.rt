// Worked examples of full trees, route orders and walks.
use crate::answers::{by, number_of};
use packet::{Mode, Route, Side};
use refusal::{Fault, Refusal};
use routing::*;
use std::test::Fail;
use wiring::{FullTree, Wiring};

fn full(levels: u16) -> Result<FullTree, Fail> {
    FullTree::new(levels).map_err(|_| Fail::new("no such full tree"))
}

#[test]
fn full_trees(rt: HostRuntime) -> Result<(), Fail> {
    assert_eq!(rt; number_of(FullTree::new(0)), Some(1));
    assert_eq!(rt; number_of(FullTree::new(6)), Some(1));
    let tree = full(5)?;
    assert_eq!(rt; tree.cards(), 31);
    assert_eq!(rt; tree.daughter(0, Side::Left), Some(1));
    assert_eq!(rt; tree.daughter(14, Side::Right), Some(30));
    assert_eq!(rt; tree.daughter(15, Side::Left), None);
    assert_eq!(rt; tree.daughter(65535, Side::Right), None);
    assert!(rt; tree.parent(0) == None);
    assert!(rt; tree.parent(29) == Some((14, Side::Left)));
    assert!(rt; tree.parent(30) == Some((14, Side::Right)));
    assert!(rt; tree.parent(31) == None);
    assert!(rt; tree.parent(65535) == None);
    Ok(())
}

// The head of an order as a word, or the number of its refusal.
fn ordered(tree: &FullTree, sender: u16, cards: &[u16]) -> Result<u32, u8> {
    order(tree, sender, cards)
        .map(u32::from)
        .map_err(|fault| fault.refusal().number)
}

#[test]
fn orders_made_and_refused(rt: HostRuntime) -> Result<(), Fail> {
    let three = full(3)?;
    assert_eq!(rt; ordered(&three, 3, &[5, 6]), Ok(0xa000_01b0));
    assert_eq!(rt; ordered(&three, 3, &[4, 4]), Ok(0x8000_0160));
    assert_eq!(rt; ordered(&three, 7, &[4]), Err(5));
    assert_eq!(rt; ordered(&three, 3, &[4, 7]), Err(5));
    assert_eq!(rt; ordered(&three, 3, &[]), Err(19));
    // an unknown sender comes before an empty list
    assert_eq!(rt; ordered(&three, 7, &[]), Err(5));
    let five = full(5)?;
    assert_eq!(rt; ordered(&five, 15, &[14]), Ok(0x8000_01ef));
    assert_eq!(rt; ordered(&five, 15, &[30]), Err(20));
    Ok(())
}

// The turn, the terminus and the hops of four flooding words, or the refusal.
fn walked(tree: &FullTree, card: u16, route: u32) -> Result<(u16, u16, u64), Refusal> {
    let walk = walk_route(tree, card, Route::low(route))?;
    let hops = path_hops(tree, Mode::Flood, &walk, 4);
    Ok((walk.turn, walk.terminus, hops))
}

#[test]
fn routes_walked(rt: HostRuntime) -> Result<(), Fail> {
    let tree = full(3)?;
    assert!(rt; walked(&tree, 3, 0x1b0) == Ok((0, 2, 28)));
    assert!(rt; walked(&tree, 3, 0x180) == Err(by(9, Some(3))));
    assert!(rt; walked(&tree, 0, 0x1a0) == Err(by(10, Some(0))));
    assert!(rt; walked(&tree, 3, 0x040) == Err(by(11, Some(3))));
    // one down from card 1, and the second descent is missing at card 4
    assert!(rt; walked(&tree, 1, 0x0e0) == Err(by(11, Some(4))));
    Ok(())
}

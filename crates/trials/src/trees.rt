// A small deck on a tree of two levels: a targeted packet is queued, fired to its card, and its key word taken.
use licence::{Book, Policy, RangeRule, Span, Verdict};
use refusal::Fault;
use router::Tree;
use station::{Input, Station};
use std::test::Fail;
use wiring::{FullTree, Wiring};

// The outputs of a fire, or its refusal's number.
fn fire<W: Wiring, P: Policy>(
    tree: &mut Tree<W, P>,
    card: u16,
    station: Station,
    input: Input,
) -> Result<u8, u8> {
    tree.fire(card, station, input)
        .map_err(|fault| fault.refusal().number)
}

#[test]
fn a_packet_is_carried(rt: HostRuntime) -> Result<(), Fail> {
    let Ok(wiring) = FullTree::new(2) else {
        return Err(Fail::new("no tree of two levels"));
    };
    let Ok(rule) = RangeRule::new(
        Span { low: 1, high: 2 },
        Span {
            low: 0x11,
            high: 0x11,
        },
        Verdict::Class(2),
    ) else {
        return Err(Fail::new("the rule is refused"));
    };
    let rules = [rule];
    let Ok(book) = Book::new(&rules) else {
        return Err(Fail::new("the book is refused"));
    };
    let mut tree = Tree::new(wiring, book);
    assert!(rt;
        tree.send(1, &[0x8000_0080, 0x0000_0011, 0x4000_0005])
            .is_ok()
    );
    assert_eq!(rt; tree.owed(), 6);
    assert_eq!(rt; fire(&mut tree, 1, Station::Up, Input::Queue), Ok(2));
    assert_eq!(rt; fire(&mut tree, 1, Station::Down, Input::Turn), Ok(0));
    assert_eq!(rt; fire(&mut tree, 1, Station::Up, Input::Queue), Ok(2));
    assert_eq!(rt; fire(&mut tree, 1, Station::Down, Input::Turn), Ok(16));
    let Ok(word) = tree.take(1) else {
        return Err(Fail::new("nothing to take"));
    };
    assert_eq!(rt; word, 0x11);
    assert_eq!(rt; fire(&mut tree, 1, Station::Down, Input::Turn), Err(14));
    assert_eq!(rt; tree.owed(), 2);
    Ok(())
}

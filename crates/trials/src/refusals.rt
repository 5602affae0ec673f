// Faults as they are answered.
use crate::answers::by;
use refusal::*;
use std::test::Fail;

fn climb() -> Result<u16, RouteFault> {
    Err(RouteFault::EndsGoingUp { card: 5 })
}

fn send() -> Result<u16, PacketFault> {
    let card = climb()?;
    Ok(card)
}

fn answer() -> Result<u16, Refusal> {
    let card = climb()?;
    Ok(card)
}

#[test]
fn numbers_and_places(rt: HostRuntime) {
    let route = RouteFault::NoDaughter { card: 3 };
    assert!(rt; PacketFault::Route(route).refusal() == by(11, Some(3)));
    assert!(rt; PacketFault::Kinds { place: 5 }.refusal() == by(7, Some(5)));
    assert!(rt; OrderFault::Unknown.refusal() == by(5, None));
}

#[test]
fn route_fault_becomes_packet_fault(rt: HostRuntime) -> Result<(), Fail> {
    let Err(fault) = send() else {
        return Err(Fail::new("sent"));
    };
    assert!(rt;
        matches!(
            fault,
            PacketFault::Route(RouteFault::EndsGoingUp { card: 5 })
        )
    );
    assert!(rt; fault.refusal() == by(9, Some(5)));
    Ok(())
}

#[test]
fn route_fault_becomes_refusal(rt: HostRuntime) -> Result<(), Fail> {
    let Err(refusal) = answer() else {
        return Err(Fail::new("answered"));
    };
    assert!(rt; refusal == by(9, Some(5)));
    Ok(())
}

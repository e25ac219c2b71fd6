//! The largest base of a proposal. No exchange shows it: a unit with so many changes has no room for another.

use plant_wire_body::read_proposal;

const LARGEST_BASE: &[u8] = b"{\"kind\":\"limit\",\"base\":20000,\"tag\":\"T\",\"max\":600}";

#[test]
fn reads_the_largest_base(rt: HostRuntime) {
    let proposal = read_proposal(rt.alloc(), LARGEST_BASE).expect(&rt, "a proposal");
    assert!(rt; proposal.base == 20_000);
    drop(proposal);
}

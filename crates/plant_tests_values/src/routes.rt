//! Targets without a route that are refused before one is looked for.

use plant_wire_route::Routes;

const NONE: [&[u8]; 2] = [b"", b"/units/U\x7f/shelves"];

#[test]
fn finds_no_route(rt: HostRuntime) {
    let routes = Routes::new(rt.alloc()).expect(&rt, "memory");
    for target in NONE.iter() {
        assert!(rt; routes.of(b"GET", target).is_none(), "{target:?}");
    }
}

//! Calls of maps and clusters that take no memory, by name, as in `no_memory`.

use crate::clusters::{BAR, FOO, Moving, get_bar, map, node, scripted};
use crate::heap::{equal, refuse_all};
use crate::no_memory::took_none;
use resp_cluster::{
    ClusterLink, NodeAddr, ReadOnly, RouteError, SendCommand, SlotMap, TopologyError,
};
use std::alloc::AllocError;

/// The port of a node, if it is known.
fn port_of(node: Option<&NodeAddr>) -> u16 {
    match node {
        Some(node) => node.port,
        None => 0,
    }
}

#[test]
fn maps(rt: HostRuntime) {
    let map = map(&rt);
    refuse_all(rt.alloc());
    let range = map.range_at(BAR).expect(&rt, "its range");
    assert!(rt; range.covers(BAR) && !range.covers(FOO));
    equal(&rt, map.ranges().len(), 2);
    equal(&rt, port_of(map.primary_at(FOO)), 7002);
    equal(&rt, port_of(map.reader_at(BAR)), 7003);
    assert!(rt; SlotMap::new(rt.alloc()).ranges().is_empty());
    took_none(&rt);
}

#[test]
fn refusals(rt: HostRuntime) {
    refuse_all(rt.alloc());
    let topology = TopologyError::from(AllocError);
    assert!(rt; matches!(topology, TopologyError::OutOfMemory));
    let route = RouteError::<usize>::from(AllocError);
    assert!(rt; matches!(route, RouteError::OutOfMemory));
    took_none(&rt);
}

#[test]
fn clusters(rt: HostRuntime) {
    let (map, nodes) = (
        map(&rt),
        ReadOnly {
            nodes: scripted(&rt, b""),
        },
    );
    refuse_all(rt.alloc());
    let mut con = ClusterLink::new(rt.alloc(), nodes, map, 3);
    con.read_from_replicas();
    assert!(rt; con.link().is_none());
    equal(&rt, con.map().ranges().len(), 2);
    took_none(&rt);
}

#[test]
fn sends(rt: HostRuntime) {
    let (command, node) = (get_bar(&rt), node(&rt, "a", 7001));
    let mut nodes = Moving {
        alloc: rt.alloc(),
        sends: 0,
    };
    refuse_all(rt.alloc());
    equal(
        &rt,
        SendCommand::send(&mut nodes, &command, &node, false),
        1,
    );
    took_none(&rt);
}

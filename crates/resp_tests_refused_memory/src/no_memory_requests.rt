//! Calls of a server that take no memory, by name: none makes a request to the heap.

use crate::heap::{equal, refuse_all};
use crate::no_memory::took_none;
use resp_core::{Writing, parse_redis_value, send_all};
use resp_server::Request;

#[test]
fn requests(rt: HostRuntime) {
    let bytes = b"*2\r\n$3\r\nGET\r\n$1\r\nk\r\n";
    let value = parse_redis_value(rt.alloc(), bytes).expect(&rt, "no refusal");
    refuse_all(rt.alloc());
    let request = Request::from_value(value).expect(&rt, "a request");
    assert!(rt; request.is_named("get") && request.name() == b"GET".as_slice());
    equal(&rt, request.len(), 2);
    equal(&rt, request.args().count(), 1);
    equal(&rt, request.into_args().count(), 2);
    took_none(&rt);
}

#[test]
fn bytes_over_a_sink(rt: HostRuntime) {
    let room: Vec<u8> = Vec::with_capacity(rt.alloc(), 8).expect(&rt, "no refusal");
    let mut sink = Writing::new(room);
    refuse_all(rt.alloc());
    equal(&rt, send_all(&mut sink, b"abc"), Ok(()));
    equal(&rt, sink.into_inner().len(), 3);
    took_none(&rt);
}

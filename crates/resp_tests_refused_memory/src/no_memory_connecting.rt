//! Calls of addresses, greetings and dialled links that take no memory, by name, as in `no_memory`.

use crate::connecting::{info, one_dial};
use crate::heap::{equal, refuse_all};
use crate::no_memory::took_none;
use resp_connect::{
    ConnectionAddr, ConnectionInfo, GreetingError, GreetingStep, Pool, ProtocolChoice,
    Reconnecting, RedisConnectionInfo,
};
use resp_core::{ErrorKind, ProtocolVersion, RedisError, ServerError, ServerErrorKind};

#[test]
fn addresses(rt: HostRuntime) {
    let info: ConnectionInfo = info(&rt);
    refuse_all(rt.alloc());
    assert!(rt; matches!(info.addr(), ConnectionAddr::Tcp(_, 6380)));
    let settings = info.redis_settings();
    equal(&rt, settings.db(), 3);
    equal(&rt, settings.username(), Some("app"));
    equal(&rt, settings.password(), Some("sesame"));
    equal(&rt, settings.client_name(), Some("app-1"));
    assert!(rt; settings.protocol() == ProtocolChoice::from(ProtocolVersion::RESP3));
    took_none(&rt);
}

#[test]
fn changed_addresses(rt: HostRuntime) {
    let first = info(&rt);
    let addr = info(&rt).addr().try_clone(rt.alloc());
    let addr = addr.expect(&rt, "no refusal");
    refuse_all(rt.alloc());
    let settings = RedisConnectionInfo::default().set_db(2);
    let settings = settings.set_protocol(ProtocolChoice::PreferRESP3);
    let changed = first.set_redis_settings(settings).set_addr(addr);
    equal(&rt, changed.redis_settings().db(), 2);
    took_none(&rt);
}

#[test]
fn refused_greetings(rt: HostRuntime) {
    let error = ServerError::from_text(rt.alloc(), "NOPROTO x").expect(&rt, "no refusal");
    refuse_all(rt.alloc());
    let refused = GreetingError::Refused {
        step: GreetingStep::Hello,
        error,
    };
    assert!(rt; refused.lacks_hello());
    let server = ErrorKind::Server(ServerErrorKind::ResponseError);
    assert!(rt; RedisError::from(refused).kind() != server);
    let failed = GreetingError::from(RedisError::OutOfMemory);
    assert!(rt; !failed.lacks_hello());
    took_none(&rt);
}

#[test]
fn links_that_are_replaced(rt: HostRuntime) {
    let script = one_dial(&rt);
    refuse_all(rt.alloc());
    let con = Reconnecting::new(script);
    assert!(rt; con.link().is_none());
    let (_script, link) = con.into_parts();
    assert!(rt; link.is_none());
    took_none(&rt);
}

#[test]
fn pools(rt: HostRuntime) {
    let mut pool = Pool::new(rt.alloc(), one_dial(&rt), 1);
    let link = pool.get().expect(&rt, "no refusal");
    pool.put(link);
    refuse_all(rt.alloc());
    let link = pool.get().expect(&rt, "a link that waits");
    equal(&rt, (pool.idle(), pool.lent()), (0, 1));
    pool.put(link);
    equal(&rt, (pool.idle(), pool.lent()), (1, 0));
    took_none(&rt);
}

#[test]
fn new_pools(rt: HostRuntime) {
    let script = one_dial(&rt);
    refuse_all(rt.alloc());
    let pool = Pool::new(rt.alloc(), script, 1);
    equal(&rt, pool.idle(), 0);
    took_none(&rt);
}

//! Counts a visit at the Redis server that standard input and output are joined to.
#![tactic(auto)]

use resp_core::{ByteLink, RedisResult, cmd};

fn main(rt: HostRuntime) -> RedisResult<()> {
    let mut link = ByteLink::new(rt.alloc(), rt.stdin(), rt.stdout());
    let visits: i64 = cmd(rt.alloc(), "INCR")?.arg("visits")?.query(&mut link)?;
    eprintln!(rt; "{visits} visits")?;
    Ok(())
}

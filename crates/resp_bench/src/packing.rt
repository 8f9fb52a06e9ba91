//! Rounds of packing.

use crate::Round;
use resp_core::{Cmd, Pipeline, RedisResult, cmd, pipe};
use std::alloc::Global;

const KEY: &str = "key:000000001";

const VALUE: &str = "value-of-twenty-byte";

/// How many bytes the large argument has.
const LARGE: usize = 1 << 20;

/// How many commands the pipeline has.
const COMMANDS: usize = 1000;

/// What is packed.
#[derive(Clone, Copy, Debug)]
pub enum Packing {
    Set,
    SetOnly,
    Big,
    BigOnly,
    Pipe,
}

/// What is there before the rounds.
#[derive(Drop)]
pub struct Load {
    large: Vec<u8>,
    small_command: Cmd,
    large_command: Cmd,
}

impl Packing {
    /// What the word names, if it names one.
    pub fn named(word: &str) -> Option<Packing> {
        match word {
            "set" => Some(Packing::Set),
            "set-only" => Some(Packing::SetOnly),
            "big" => Some(Packing::Big),
            "big-only" => Some(Packing::BigOnly),
            "pipe" => Some(Packing::Pipe),
            _ => None,
        }
    }

    /// The argument and the commands that rounds of it need.
    pub fn load(self, alloc: Global) -> RedisResult<Load> {
        let mut large = Vec::new(alloc);
        for _ in 0..LARGE {
            large.push(b'x')?;
        }
        let large_command = large_command(alloc, large.as_slice())?;
        Ok(Load {
            large,
            small_command: set_command(alloc)?,
            large_command,
        })
    }
}

/// Packs `count` times, and adds up the bytes.
#[inline(never)]
pub fn pack_round(
    alloc: Global,
    packing: Packing,
    load: &Load,
    count: usize,
) -> RedisResult<Round> {
    let mut bytes: u64 = 0;
    let mut buffer = Vec::new(alloc);
    for _ in 0..count {
        let packed = match packing {
            Packing::Set => set_command(alloc)?.get_packed_command()?.len(),
            Packing::SetOnly => {
                buffer.clear();
                load.small_command.write_packed_command(&mut buffer)?;
                buffer.len()
            }
            Packing::Big => {
                let command = large_command(alloc, load.large.as_slice())?;
                command.get_packed_command()?.len()
            }
            Packing::BigOnly => load.large_command.get_packed_command()?.len(),
            Packing::Pipe => set_pipeline(alloc)?.get_packed_pipeline()?.len(),
        };
        bytes = bytes.saturating_add(packed as u64);
    }
    let each = match packing {
        Packing::Pipe => COMMANDS as u64,
        _ => 1,
    };
    Ok(Round {
        units: each.saturating_mul(count as u64),
        bytes,
    })
}

#[inline(never)]
pub fn set_command(alloc: Global) -> RedisResult<Cmd> {
    let mut command = cmd(alloc, "SET")?;
    command.push_arg(KEY)?;
    command.push_arg(VALUE)?;
    Ok(command)
}

#[inline(never)]
fn large_command(alloc: Global, large: &[u8]) -> RedisResult<Cmd> {
    let mut command = cmd(alloc, "SET")?;
    command.push_arg(KEY)?;
    command.push_arg(large)?;
    Ok(command)
}

#[inline(never)]
fn set_pipeline(alloc: Global) -> RedisResult<Pipeline> {
    let mut pipeline = pipe(alloc);
    for _ in 0..COMMANDS {
        pipeline.add_command(set_command(alloc)?)?;
    }
    Ok(pipeline)
}

//! Requests as bytes.

ghost use Rattle.std.specs.Prelude.{◌≡◌, ◌≤◌, ◌+◌, false, drop, length, IfOk, IfErr};
ghost use Rattle.resp_command.specs.Command.{new_command};
ghost use Rattle.resp_command.specs.Packed.{packed_or_none};
ghost use Rattle.resp_pipeline.specs.Pipeline.{args_of_commands};
ghost use Rattle.resp_c.specs.Packing.{cuts, total, request_of, FitBoth, Refuses, Given};

use crate::status::{DONE, MEMORY, RANGE, ROOM};
use resp_args::RedisWrite;
use resp_command::Cmd;
use resp_pipeline::Pipeline;
use std::alloc::Global;

/// The bytes that send a command of these arguments, whose bytes stand one after another; or what
/// its caller is told.
pub fn pack(alloc: Global, args: &[u8], sizes: &[usize]) -> Result<Vec<u8>, u32>
    ensures packed { IfOk result (λ v. v.items ≡ packed_or_none (cuts sizes.now args.now)) }
    ensures fits { IfOk result (λ v. total sizes.now ≡ length args.now) }
    ensures refused { IfErr result (Refuses (total sizes.now ≡ length args.now)) }
{
    let (command, rest) = command_of(alloc, args, sizes)?;
    if !rest.is_empty() {
        return Err(RANGE);
    }
    match command.get_packed_command() {
        Ok(bytes) => Ok(bytes),
        Err(_) => Err(MEMORY),
    }
}

/// The command of arguments of these sizes at the start of bytes, and what follows them.
fn command_of<'a>(alloc: Global, args: &'a [u8], sizes: &[usize]) -> Result<(Cmd, &'a [u8]), u32>
    ensures command { IfOk result (λ p. p.0 ≡ record new_command { args = cuts sizes.now args.now }) }
    ensures rest { IfOk result (λ p. p.1.now ≡ drop (total sizes.now) args.now) }
    ensures size { IfOk result (λ p. length p.1.now + total sizes.now ≡ length args.now) }
    ensures refused { IfErr result (Refuses (total sizes.now ≤ length args.now)) }
{
    let mut command = Cmd::new(alloc);
    let mut rest = args;
    for size in sizes {
        if *size > rest.len() {
            return Err(RANGE);
        }
        let (arg, later) = rest.split_at(*size);
        if command.write_arg(arg).is_err() {
            return Err(MEMORY);
        }
        rest = later;
    }
    Ok((command, rest))
}

/// The bytes that send these commands, in a transaction or not: `counts` has how many arguments each
/// has; or what its caller is told.
pub fn pack_pipeline(
    alloc: Global,
    args: &[u8],
    sizes: &[usize],
    counts: &[usize],
    atomic: bool,
) -> Result<Vec<u8>, u32>
    ensures packed { IfOk result (λ v. v.items
        ≡ request_of atomic (cuts counts.now (cuts sizes.now args.now))) }
    ensures fits { IfOk result (λ v. FitBoth counts.now sizes.now args.now) }
    ensures refused { IfErr result (Refuses (FitBoth counts.now sizes.now args.now)) }
{
    let mut pipeline = commands_of(alloc, args, sizes, counts)?;
    if atomic {
        pipeline.atomic();
    }
    match pipeline.get_packed_pipeline() {
        Ok(bytes) => Ok(bytes),
        Err(_) => Err(MEMORY),
    }
}

/// The pipeline of these commands.
fn commands_of(
    alloc: Global,
    args: &[u8],
    sizes: &[usize],
    counts: &[usize],
) -> Result<Pipeline, u32>
    ensures commands { IfOk result (λ p. args_of_commands p.commands
        ≡ cuts counts.now (cuts sizes.now args.now)) }
    ensures atomic { IfOk result (λ p. p.atomic ≡ false) }
    ensures fits { IfOk result (λ p. FitBoth counts.now sizes.now args.now) }
    ensures refused { IfErr result (Refuses (FitBoth counts.now sizes.now args.now)) }
{
    let mut pipeline = Pipeline::new(alloc);
    let mut sizes_left = sizes;
    let mut args_left = args;
    for count in counts {
        if *count > sizes_left.len() {
            return Err(RANGE);
        }
        let (own, later) = sizes_left.split_at(*count);
        let (command, rest) = command_of(alloc, args_left, own)?;
        if pipeline.push_command(command).is_err() {
            return Err(MEMORY);
        }
        sizes_left = later;
        args_left = rest;
    }
    if sizes_left.is_empty() && args_left.is_empty() {
        return Ok(pipeline);
    }
    Err(RANGE)
}

/// Copies bytes to the start of `out`, where there is room; `size` is how many there are.
pub fn give(bytes: &[u8], out: &mut [u8], size: &mut usize) -> u32
    ensures given { Given bytes.now out.old out.new size.new result }
{
    *size = bytes.len();
    if out.len() < bytes.len() {
        return ROOM;
    }
    out[..bytes.len()].copy_from_slice(bytes);
    DONE
}

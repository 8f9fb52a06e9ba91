//! The words of a call.

ghost use Rattle.std.specs.Prelude.{◌≡◌, IfOk, Some};

use resp_core::{Cmd, RedisResult};
use std::alloc::Global;

/// The budget of a call, and its words.
pub fn budget_of(words: &[String]) -> (u64, &[String]) {
    if let Some((first, rest)) = words.split_first() {
        if let Ok(budget) = first.parse::<u64>() {
            return (budget, rest);
        }
    }
    (u64::MAX, words)
}

/// How many words stand before the cursor.
pub fn cursor_place(words: &[String]) -> usize {
    match words.first() {
        Some(name) if name.eq_ignore_ascii_case("SCAN") => 1,
        _ => 2,
    }
}

/// The command of the words, with cursor 0 in its place.
pub fn scan_command(alloc: Global, words: &[String]) -> RedisResult<Cmd>
    ensures { IfOk result (λ c. c.cursor ≡ Some 0) }
{
    let mut command = Cmd::new(alloc);
    let (before, after) = words.split_at(cursor_place(words).min(words.len()));
    command.push_arg(before)?;
    command.push_cursor_arg(0)?;
    command.push_arg(after)?;
    Ok(command)
}

//! What `{}` writes of a value, as bytes.

ghost use Rattle.std.specs.Prelude.{◌≡◌, ◌++◌, IfOk, IfErr, IfSome};
ghost use Rattle.resp_args.specs.Args.{IsUnformatted};

use resp_errors::{ErrorKind, RedisError, RedisResult};
use std::alloc::Global;
use std::fmt;

/// Bytes that formatting appends to, and whether memory ran out on the way.
#[derive(Drop)]
struct Shown {
    bytes: Vec<u8>,
    out_of_memory: bool,
}

impl fmt::Write for Shown {
    ghost write_str_gives = { λ old text new. new.bytes.items ≡ old.bytes.items ++ text };

    fn write_str(&mut self, text: &str) -> fmt::Result {
        if self.bytes.extend_from_slice(text.as_bytes()).is_err() {
            self.out_of_memory = true;
            return Err(fmt::Error);
        }
        Ok(())
    }
}

/// What `{}` writes of a value. Fails with `OutOfMemory`, and with kind `Client` where the value
/// fails to format itself.
pub fn shown_bytes<D: fmt::Display + Drop>(alloc: Global, value: D) -> RedisResult<Vec<u8>>
    ensures shown { IfOk result (λ v. IfSome (D.output value) (λ text. v.items ≡ text)) }
    ensures refused { IfErr result IsUnformatted }
{
    let mut shown = Shown {
        bytes: Vec::new(alloc),
        out_of_memory: false,
    };
    let result = fmt::Write::write(&mut shown, value);
    if shown.out_of_memory {
        return Err(RedisError::OutOfMemory);
    }
    match result {
        Ok(()) => Ok(shown.bytes),
        Err(_) => Err(RedisError::from((ErrorKind::Client, "formatting failed"))),
    }
}

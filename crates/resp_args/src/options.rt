//! Options of single commands.

ghost use Rattle.std.specs.Prelude.{◌≡◌, ◌↔◌, IsTrue};
ghost use Rattle.std.specs.Char.{is_ascii_hexdigit};
ghost use Rattle.std.specs.List.{list_all};
ghost use Rattle.resp_args.specs.Options.{GivesOf, args_of_set_expiry, args_of_existence_check};
ghost use Rattle.resp_args.specs.Options.{args_of_field_existence_check, args_of_expire_option};
ghost use Rattle.resp_args.specs.Options.{is_digest};
ghost use Rattle.resp_args.specs.declared.options.ProtocolVersion.TheVariants as version;

use crate::args::{NumericBehavior, ToRedisArgs};
use crate::write::RedisWrite;
use resp_errors::RedisResult;

/// When a key expires that a command reads or writes.
///
/// Each command says for itself how it is written.
#[derive(Clone, Drop)]
pub enum Expiry {
    /// In this many seconds.
    EX(u64),
    /// In this many milliseconds.
    PX(u64),
    /// At this Unix time, in seconds.
    EXAT(u64),
    /// At this Unix time, in milliseconds.
    PXAT(u64),
    /// Never.
    PERSIST,
}

/// When a key expires that is set: the name of the case and its number, or `KEEPTTL`.
#[derive(Clone, Copy)]
pub enum SetExpiry {
    /// In this many seconds.
    EX(u64),
    /// In this many milliseconds.
    PX(u64),
    /// At this Unix time, in seconds.
    EXAT(u64),
    /// At this Unix time, in milliseconds.
    PXAT(u64),
    /// When it would have expired before.
    KEEPTTL,
}

/// Whether a key has to be there, or not to be there, to be set.
#[derive(Clone, Copy)]
pub enum ExistenceCheck {
    /// Only if the key is not there.
    NX,
    /// Only if the key is there.
    XX,
}

/// Whether fields of a hash have to be there, or not to be there, to be set.
#[derive(Clone, Copy)]
pub enum FieldExistenceCheck {
    /// Only if none of the fields is there.
    FNX,
    /// Only if all of the fields are there.
    FXX,
}

/// When a key's time to live is changed.
#[derive(Clone, Copy)]
pub enum ExpireOption {
    /// Always; gives no argument.
    NONE,
    /// Only if the key doesn't expire.
    NX,
    /// Only if the key expires.
    XX,
    /// Only if it lives longer then.
    GT,
    /// Only if it lives less long then.
    LT,
}

/// The version of the protocol that a connection speaks.
#[derive(Clone, Copy, PartialEq, Eq, Debug)]
pub enum ProtocolVersion {
    /// RESP2
    RESP2,
    /// RESP3
    RESP3,
}

impl Default for ProtocolVersion {
    ghost is_default = { λ v. v ≡ version.RESP2 };

    fn default() -> ProtocolVersion {
        ProtocolVersion::RESP2
    }
}

impl ProtocolVersion {
    /// Whether replies may be of the types that RESP3 added.
    pub fn supports_resp3(&self) -> bool
        ensures { IsTrue result ↔ (self.now ≡ ProtocolVersion.RESP3) }
    {
        matches!(self, ProtocolVersion::RESP3)
    }
}

/// Whether a text is a digest of 16 bytes as a server writes it: sixteen hexadecimal digits, in
/// either letter case.
pub fn is_valid_16_bytes_hex_digest(text: &str) -> bool
    ensures { result ≡ is_digest text.now }
{
    text.len() == 16 && is_hexadecimal(text.as_bytes())
}

fn is_hexadecimal(text: &[u8]) -> bool
    ensures { result ≡ list_all is_ascii_hexdigit text.now }
{
    text.iter().all(|byte| byte.is_ascii_hexdigit())
}

impl ToRedisArgs for SetExpiry {
    ghost gives = { GivesOf args_of_set_expiry };

    fn write_redis_args<W: RedisWrite>(&self, out: &mut W) -> RedisResult<()> {
        match self {
            SetExpiry::EX(seconds) => ("EX", *seconds).write_redis_args(out),
            SetExpiry::PX(milliseconds) => ("PX", *milliseconds).write_redis_args(out),
            SetExpiry::EXAT(time) => ("EXAT", *time).write_redis_args(out),
            SetExpiry::PXAT(time) => ("PXAT", *time).write_redis_args(out),
            SetExpiry::KEEPTTL => out.write_arg(b"KEEPTTL"),
        }
    }

    fn write_args_from_slice<W: RedisWrite>(items: &[Self], out: &mut W) -> RedisResult<()> {
        Self::write_each_arg(items, out)
    }

    fn num_of_args(&self) -> usize {
        1
    }

    fn describe_numeric_behavior(&self) -> NumericBehavior {
        NumericBehavior::NonNumeric
    }

    fn is_single_vec_arg(items: &[Self]) -> bool {
        items.len() == 1
    }
}

impl ToRedisArgs for ExistenceCheck {
    ghost gives = { GivesOf args_of_existence_check };

    fn write_redis_args<W: RedisWrite>(&self, out: &mut W) -> RedisResult<()> {
        match self {
            ExistenceCheck::NX => out.write_arg(b"NX"),
            ExistenceCheck::XX => out.write_arg(b"XX"),
        }
    }

    fn write_args_from_slice<W: RedisWrite>(items: &[Self], out: &mut W) -> RedisResult<()> {
        Self::write_each_arg(items, out)
    }

    fn num_of_args(&self) -> usize {
        1
    }

    fn describe_numeric_behavior(&self) -> NumericBehavior {
        NumericBehavior::NonNumeric
    }

    fn is_single_vec_arg(items: &[Self]) -> bool {
        items.len() == 1
    }
}

impl ToRedisArgs for FieldExistenceCheck {
    ghost gives = { GivesOf args_of_field_existence_check };

    fn write_redis_args<W: RedisWrite>(&self, out: &mut W) -> RedisResult<()> {
        match self {
            FieldExistenceCheck::FNX => out.write_arg(b"FNX"),
            FieldExistenceCheck::FXX => out.write_arg(b"FXX"),
        }
    }

    fn write_args_from_slice<W: RedisWrite>(items: &[Self], out: &mut W) -> RedisResult<()> {
        Self::write_each_arg(items, out)
    }

    fn num_of_args(&self) -> usize {
        1
    }

    fn describe_numeric_behavior(&self) -> NumericBehavior {
        NumericBehavior::NonNumeric
    }

    fn is_single_vec_arg(items: &[Self]) -> bool {
        items.len() == 1
    }
}

impl ToRedisArgs for ExpireOption {
    ghost gives = { GivesOf args_of_expire_option };

    fn write_redis_args<W: RedisWrite>(&self, out: &mut W) -> RedisResult<()> {
        match self {
            ExpireOption::NONE => Ok(()),
            ExpireOption::NX => out.write_arg(b"NX"),
            ExpireOption::XX => out.write_arg(b"XX"),
            ExpireOption::GT => out.write_arg(b"GT"),
            ExpireOption::LT => out.write_arg(b"LT"),
        }
    }

    fn write_args_from_slice<W: RedisWrite>(items: &[Self], out: &mut W) -> RedisResult<()> {
        Self::write_each_arg(items, out)
    }

    fn num_of_args(&self) -> usize {
        1
    }

    fn describe_numeric_behavior(&self) -> NumericBehavior {
        NumericBehavior::NonNumeric
    }

    fn is_single_vec_arg(items: &[Self]) -> bool {
        items.len() == 1
    }
}

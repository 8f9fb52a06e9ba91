//! Parts of an argument: texts, bytes and whole numbers, and tuples of them.

ghost use Rattle.std.specs.Prelude.{◌≡◌, ◌<◌, ◌++◌, length, OnOk, OnErr};
ghost use Rattle.std.specs.Fmt.{decimal, signed_decimal};
ghost use Rattle.resp_args.specs.Args.{extended};
ghost use Rattle.resp_args.specs.Kept.{Stays};
ghost use Rattle.resp_errors.specs.Memory.{OnlyMemory};
ghost use Rattle.resp_args.specs.Joined.{ExtendedInPart};

use crate::joined::ArgPart;
use crate::write::RedisWrite;
use itoa::{Buffer, Integer};
use resp_errors::RedisResult;

/// Appends bytes to the last argument.
#[tactic(auto, using(crate::proofs::JoinedArgs::none_done, crate::proofs::GrowingArgs::still_there))]
fn write_bytes<W: RedisWrite>(bytes: &[u8], out: &mut W) -> RedisResult<()>
    requires there { 0 < length (W.args out.old) }
    ensures ok { OnOk result (W.args out.new ≡ extended (W.args out.old) bytes.now) }
    ensures err { OnErr result (ExtendedInPart bytes.now (W.args out.old) (W.args out.new)) }
    ensures memory { OnlyMemory result }
    ensures there { 0 < length (W.args out.new) }
    ensures kept { Stays W.kept out.old out.new }
{
    out.extend_arg(bytes)
}

/// Appends the decimal text of a number to the last argument.
fn write_decimal<I: Integer, W: RedisWrite>(n: I, out: &mut W) -> RedisResult<()>
    requires there { 0 < length (W.args out.old) }
    ensures ok { OnOk result (W.args out.new ≡ extended (W.args out.old) (I.text n)) }
    ensures err { OnErr result (ExtendedInPart (I.text n) (W.args out.old) (W.args out.new)) }
    ensures memory { OnlyMemory result }
    ensures there { 0 < length (W.args out.new) }
    ensures kept { Stays W.kept out.old out.new }
{
    let mut buffer = Buffer::new();
    write_bytes(buffer.format(n).as_bytes(), out)
}

impl ArgPart for &str {
    ghost bytes = { λ text. text.now };

    fn write_part<W: RedisWrite>(&self, out: &mut W) -> RedisResult<()> {
        write_bytes(self.as_bytes(), out)
    }
}

impl ArgPart for String {
    ghost use Rattle.std.specs.Prelude.{string_bytes};

    ghost bytes = { string_bytes };

    fn write_part<W: RedisWrite>(&self, out: &mut W) -> RedisResult<()> {
        write_bytes(self.as_str().as_bytes(), out)
    }
}

impl ArgPart for &[u8] {
    ghost bytes = { λ bytes. bytes.now };

    fn write_part<W: RedisWrite>(&self, out: &mut W) -> RedisResult<()> {
        write_bytes(self, out)
    }
}

impl ArgPart for Vec<u8> {
    ghost bytes = { λ bytes. bytes.items };

    fn write_part<W: RedisWrite>(&self, out: &mut W) -> RedisResult<()> {
        write_bytes(self.as_slice(), out)
    }
}

impl<T: ArgPart> ArgPart for &T {
    ghost bytes = { λ part. T.bytes part.now };

    fn write_part<W: RedisWrite>(&self, out: &mut W) -> RedisResult<()> {
        (**self).write_part(out)
    }
}

/// Two parts, one after the other.
impl<A: ArgPart, B: ArgPart> ArgPart for (A, B) {
    ghost bytes = { λ parts. A.bytes parts.0 ++ B.bytes parts.1 };

    #[tactic(auto, using(crate::proofs::JoinedArgs::first_in_part, crate::proofs::JoinedArgs::second_in_part, crate::proofs::JoinedArgs::both_parts))]
    fn write_part<W: RedisWrite>(&self, out: &mut W) -> RedisResult<()> {
        self.0.write_part(out)?;
        self.1.write_part(out)
    }
}

impl<A: ArgPart, B: ArgPart, C: ArgPart> ArgPart for (A, B, C) {
    ghost bytes = { λ parts. A.bytes parts.0 ++ B.bytes parts.1 ++ C.bytes parts.2 };

    fn write_part<W: RedisWrite>(&self, out: &mut W) -> RedisResult<()> {
        let rest = (&self.1, &self.2);
        (&self.0, rest).write_part(out)
    }
}

impl<A: ArgPart, B: ArgPart, C: ArgPart, D: ArgPart> ArgPart for (A, B, C, D) {
    ghost bytes = { λ parts. A.bytes parts.0 ++ B.bytes parts.1 ++ C.bytes parts.2 ++ D.bytes parts.3 };

    fn write_part<W: RedisWrite>(&self, out: &mut W) -> RedisResult<()> {
        let rest = (&self.1, &self.2, &self.3);
        (&self.0, rest).write_part(out)
    }
}

impl<A: ArgPart, B: ArgPart, C: ArgPart, D: ArgPart, E: ArgPart> ArgPart for (A, B, C, D, E) {
    ghost bytes = { λ parts. A.bytes parts.0 ++ B.bytes parts.1 ++ C.bytes parts.2 ++ D.bytes parts.3 ++ E.bytes parts.4 };

    fn write_part<W: RedisWrite>(&self, out: &mut W) -> RedisResult<()> {
        let rest = (&self.1, &self.2, &self.3, &self.4);
        (&self.0, rest).write_part(out)
    }
}

impl<A: ArgPart, B: ArgPart, C: ArgPart, D: ArgPart, E: ArgPart, F: ArgPart> ArgPart
    for (A, B, C, D, E, F) {
    ghost bytes = { λ parts. A.bytes parts.0 ++ B.bytes parts.1 ++ C.bytes parts.2 ++ D.bytes parts.3 ++ E.bytes parts.4 ++ F.bytes parts.5 };

    fn write_part<W: RedisWrite>(&self, out: &mut W) -> RedisResult<()> {
        let rest = (&self.1, &self.2, &self.3, &self.4, &self.5);
        (&self.0, rest).write_part(out)
    }
}

impl ArgPart for i8 {
    ghost bytes = { signed_decimal };

    fn write_part<W: RedisWrite>(&self, out: &mut W) -> RedisResult<()> {
        write_decimal(*self, out)
    }
}

impl ArgPart for i16 {
    ghost bytes = { signed_decimal };

    fn write_part<W: RedisWrite>(&self, out: &mut W) -> RedisResult<()> {
        write_decimal(*self, out)
    }
}

impl ArgPart for i32 {
    ghost bytes = { signed_decimal };

    fn write_part<W: RedisWrite>(&self, out: &mut W) -> RedisResult<()> {
        write_decimal(*self, out)
    }
}

impl ArgPart for i64 {
    ghost bytes = { signed_decimal };

    fn write_part<W: RedisWrite>(&self, out: &mut W) -> RedisResult<()> {
        write_decimal(*self, out)
    }
}

impl ArgPart for i128 {
    ghost bytes = { signed_decimal };

    fn write_part<W: RedisWrite>(&self, out: &mut W) -> RedisResult<()> {
        write_decimal(*self, out)
    }
}

impl ArgPart for isize {
    ghost bytes = { signed_decimal };

    fn write_part<W: RedisWrite>(&self, out: &mut W) -> RedisResult<()> {
        write_decimal(*self, out)
    }
}

impl ArgPart for u8 {
    ghost bytes = { decimal };

    fn write_part<W: RedisWrite>(&self, out: &mut W) -> RedisResult<()> {
        write_decimal(*self, out)
    }
}

impl ArgPart for u16 {
    ghost bytes = { decimal };

    fn write_part<W: RedisWrite>(&self, out: &mut W) -> RedisResult<()> {
        write_decimal(*self, out)
    }
}

impl ArgPart for u32 {
    ghost bytes = { decimal };

    fn write_part<W: RedisWrite>(&self, out: &mut W) -> RedisResult<()> {
        write_decimal(*self, out)
    }
}

impl ArgPart for u64 {
    ghost bytes = { decimal };

    fn write_part<W: RedisWrite>(&self, out: &mut W) -> RedisResult<()> {
        write_decimal(*self, out)
    }
}

impl ArgPart for u128 {
    ghost bytes = { decimal };

    fn write_part<W: RedisWrite>(&self, out: &mut W) -> RedisResult<()> {
        write_decimal(*self, out)
    }
}

impl ArgPart for usize {
    ghost bytes = { decimal };

    fn write_part<W: RedisWrite>(&self, out: &mut W) -> RedisResult<()> {
        write_decimal(*self, out)
    }
}

//! Writers of one argument.

ghost use Rattle.std.specs.Prelude.{◌≡◌, ◌<◌, length, IsOk, OnOk, OnErr};
ghost use Rattle.resp_args.specs.Args.{extended};
ghost use Rattle.resp_args.specs.Kept.{Stays};
ghost use Rattle.resp_errors.specs.Memory.{OnlyMemory};

use crate::write::RedisWrite;
use resp_errors::RedisResult;

/// Writes one argument in pieces; made by
/// [`writer_for_next_arg`](RedisWrite::writer_for_next_arg).
///
/// The argument is there from then on, also where nothing is written to it. Dropping the writer
/// takes no memory and writes nothing: see
/// [`law_of_dropped_writers`](crate::laws::law_of_dropped_writers).
#[derive(Drop)]
pub struct ArgWriter<'a, W> {
    /// The list whose last argument is written.
    pub out: &'a mut W,
}

impl<'a, W: RedisWrite> ArgWriter<'a, W> {
    /// Appends bytes to the argument. Fails only with `OutOfMemory`, and then leaves it as it was.
    #[tactic(auto, using(crate::proofs::GrowingArgs::still_there))]
    pub fn write_all(&mut self, more: &[u8]) -> RedisResult<()>
        requires there { 0 < length (W.args self.old.out.now) }
        ensures same_reference { self.new.out.ghost_name ≡ self.old.out.ghost_name }
        ensures ok { OnOk result
            (W.args self.new.out.now ≡ extended (W.args self.old.out.now) more.now) }
        ensures err { OnErr result (W.args self.new.out.now ≡ W.args self.old.out.now) }
        ensures memory { OnlyMemory result }
        ensures there { 0 < length (W.args self.new.out.now) }
        ensures kept { Stays W.kept self.old.out.now self.new.out.now }
    {
        self.out.extend_arg(more)
    }

    /// Does nothing: each piece is written at once.
    pub fn flush(&mut self) -> RedisResult<()>
        ensures same_reference { self.new.out.ghost_name ≡ self.old.out.ghost_name }
        ensures ok { IsOk result }
        ensures same { self.new.out.now ≡ self.old.out.now }
    {
        Ok(())
    }
}

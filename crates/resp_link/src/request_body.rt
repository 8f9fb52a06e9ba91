//! Requests whose last argument is read as it is sent.

ghost use Rattle.std.specs.Prelude.{◌≡◌, ◌<◌, length, IfOk};
ghost use Rattle.resp_errors.specs.Memory.{OnlyMemory};
ghost use Rattle.resp_link.specs.SendingBodies.{before_body, SendsBody, SendsRequest};
ghost use Rattle.resp_link.specs.SendingBodies.{body_ended as ended, body_not_read as not_read};

use crate::pieces::send_piece;
use crate::sink::{CommandSink, send_all};
use itoa::Buffer;
use resp_args::RedisWrite;
use resp_command::Cmd;
use resp_parse::ReplySource;
use resp_value::{ErrorKind, RedisError, RedisResult};

/// How an argument of no bytes is sent.
const EMPTY: &[u8] = b"$0\r\n\r\n";

/// The bytes that send a command with one argument more, up to the bytes of that argument, which has
/// `len` of them. Fails only with `OutOfMemory`.
pub(crate) fn request_head(cmd: &Cmd, len: usize) -> RedisResult<Vec<u8>>
    ensures head { IfOk result (λ head. head.items ≡ before_body cmd.now.args len) }
    ensures memory { OnlyMemory result }
{
    let mut whole = cmd.try_clone()?;
    whole.write_arg(b"")?;
    let mut head = whole.get_packed_command()?;
    head.truncate(head.len() - EMPTY.len());
    head.push(b'$')?;
    head.extend_from_slice(Buffer::new().format(len).as_bytes())?;
    head.extend_from_slice(b"\r\n")?;
    Ok(head)
}

/// Sends the head of a request, and then a body of `len` bytes that is read, and its CR LF, and
/// flushes. The chunk is where bytes of the body are put.
pub(crate) fn send_with_body<K: CommandSink, B: ReplySource>(
    sink: &mut K,
    head: &[u8],
    body: &mut B,
    len: usize,
    chunk: &mut [u8],
) -> RedisResult<()>
    requires chunk { 0 < length chunk.old }
    ensures sends { SendsRequest head.now len (K.sink sink.old) (K.sink sink.new)
        (B.source body.old) (B.source body.new) result }
{
    send_piece(sink, head)?;
    send_body(sink, body, len, chunk)?;
    send_all(sink, b"\r\n")?;
    Ok(())
}

/// Sends a body of `len` bytes that is read.
fn send_body<K: CommandSink, B: ReplySource>(
    sink: &mut K,
    body: &mut B,
    len: usize,
    chunk: &mut [u8],
) -> RedisResult<()>
    requires chunk { 0 < length chunk.old }
    ensures sends { SendsBody len (K.sink sink.old) (K.sink sink.new)
        (B.source body.old) (B.source body.new) result }
{
    let mut missing = len;
    while missing > 0 {
        let most = missing.min(chunk.len());
        match body.fill(&mut chunk[..most]) {
            Ok(0) => return Err(body_ended()),
            Ok(count) => {
                send_piece(sink, &chunk[..count])?;
                missing -= count;
            }
            Err(_) => return Err(body_not_read()),
        }
    }
    Ok(())
}

/// What a call is refused with where what gives the body ends early.
fn body_ended() -> RedisError
    ensures { result ≡ ended }
{
    RedisError::from((ErrorKind::Io, "body ended early"))
}

/// What a call is refused with where what gives the body fails.
fn body_not_read() -> RedisError
    ensures { result ≡ not_read }
{
    RedisError::from((ErrorKind::Io, "body wasn't read"))
}

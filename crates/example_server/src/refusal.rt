//! Refusals, in the words of a server.

ghost use Rattle.std.specs.Prelude.{◌≡◌, ◌++◌, IfOk, OnOk, [], map, take, codes};
ghost use Rattle.std.specs.Char.{to_ascii_uppercase};
ghost use Rattle.example_server.specs.Names.{text_of};
ghost use Rattle.example_server.specs.Refusals.{error_of, line_of, fixed_line, unknown_line};
ghost use Rattle.example_server.specs.Refusals.{c_string, front, quoted_after, with_quoted};
ghost use Rattle.example_server.specs.Refusals.{trimmed};
ghost use Rattle.example_server.specs.ProtocolErrors.{spaced};

use crate::lines::end_of;
use crate::names::CommandName;
use crate::protocol_error::is_line_end;
use resp_core::{RedisResult, ServerError, Text, Value};
use std::alloc::{AllocError, Global};

/// Why a command isn't answered.
#[derive(Drop)]
pub enum Refusal {
    /// There is no command of this name; its words.
    UnknownCommand(Vec<Vec<u8>>),
    /// The command has no such subcommand.
    UnknownSubcommand(CommandName, Vec<u8>),
    /// The command takes fewer or more arguments.
    WrongNumber(CommandName),
    /// `HELLO` has no such option.
    HelloOption(Vec<u8>),
    /// `EXPIRE` has no such option.
    ExpireOption(Vec<u8>),
    /// A version of the protocol is no integer.
    VersionNotInteger,
    /// There is no such version of the protocol.
    NoSuchVersion,
    /// There is no such database.
    NoSuchDatabase,
    /// The name of a client has a byte outside `!` to `~`.
    ClientName,
    /// The options are none of the command's.
    Syntax,
    /// The command has a time that is out of range.
    ExpireTime(CommandName),
    /// `EXPIRE` has `NX` and `XX`, `GT` or `LT`.
    NxWithOthers,
    /// `EXPIRE` has `GT` and `LT`.
    GtWithLt,
    /// The key holds a value of another type.
    WrongType,
    /// A value or an argument is no integer.
    NotInteger,
    /// The next integer has more than 64 bits.
    Overflow,
    /// `MULTI` after `MULTI`.
    NestedMulti,
    /// `EXEC` without `MULTI`.
    ExecWithoutMulti,
    /// `DISCARD` without `MULTI`.
    DiscardWithoutMulti,
    /// `EXEC` with arguments.
    ExecWithArguments,
    /// `EXEC` where a command was not read since `MULTI`.
    ExecAborted,
}

/// How many bytes an error repeats at most of a name, and of arguments.
const REPEATED: usize = 128;

impl Refusal {
    /// The refusal as an error reply.
    ///
    /// A word that it repeats ends before a NUL, a CR or LF in it is a space, but left out at the
    /// end of the line, and what isn't UTF-8 is U+FFFD.
    pub fn into_value(self, alloc: Global) -> RedisResult<Value>
        ensures { IfOk result (λ value. value ≡ error_of self) }
    {
        let line = self.line(alloc)?;
        let line = without_ends(alloc, trimmed(line.as_slice()))?;
        let text = Text::from_utf8_lossy(alloc, line.as_slice())?;
        Ok(Value::ServerError(ServerError::from_text(alloc, text.as_str())?))
    }

    fn line(&self, alloc: Global) -> Result<Vec<u8>, AllocError>
        ensures { IfOk result (λ line. line.items ≡ line_of self.now) }
    {
        match self {
            Refusal::UnknownCommand(words) => unknown_command(alloc, words.as_slice()),
            Refusal::UnknownSubcommand(name, word) => unknown_subcommand(alloc, *name, word),
            Refusal::WrongNumber(name) => wrong_number(alloc, *name),
            Refusal::HelloOption(word) => around(
                alloc,
                "ERR Syntax error in HELLO option '",
                word,
                "'",
            ),
            Refusal::ExpireTime(name) => expire_time(alloc, *name),
            Refusal::ExpireOption(word) => around(alloc, "ERR Unsupported option ", word, ""),
            other => Vec::from_slice(alloc, other.fixed_text().as_bytes()),
        }
    }

    /// The text of a refusal that repeats nothing of the command.
    fn fixed_text(&self) -> &'static str
        ensures { result.now ≡ fixed_line self.now }
    {
        match self {
            Refusal::VersionNotInteger => "ERR Protocol version is not an integer or out of range",
            Refusal::NoSuchVersion => "NOPROTO unsupported protocol version",
            Refusal::NoSuchDatabase => "ERR DB index is out of range",
            Refusal::ClientName => {
                "ERR Client names cannot contain spaces, newlines or special characters."
            }
            Refusal::NxWithOthers => {
                "ERR NX and XX, GT or LT options at the same time are not compatible"
            }
            Refusal::GtWithLt => "ERR GT and LT options at the same time are not compatible",
            Refusal::WrongType => {
                "WRONGTYPE Operation against a key holding the wrong kind of value"
            }
            Refusal::NotInteger => "ERR value is not an integer or out of range",
            Refusal::Overflow => "ERR increment or decrement would overflow",
            Refusal::NestedMulti => "ERR MULTI calls can not be nested",
            Refusal::ExecWithoutMulti => "ERR EXEC without MULTI",
            Refusal::DiscardWithoutMulti => "ERR DISCARD without MULTI",
            Refusal::ExecWithArguments => {
                "EXECABORT Transaction discarded because of: \
                 wrong number of arguments for 'exec' command"
            }
            Refusal::ExecAborted => "EXECABORT Transaction discarded because of previous errors.",
            _ => "ERR syntax error",
        }
    }
}

/// The line without the CRs and LFs at its end.
fn trimmed(line: &[u8]) -> &[u8]
    ensures { result.now ≡ trimmed line.now }
{
    let mut len = line.len();
    while len > 0 && is_line_end(line[len - 1]) {
        len -= 1;
    }
    &line[..len]
}

/// The bytes with a space for each CR and LF.
fn without_ends(alloc: Global, line: &[u8]) -> Result<Vec<u8>, AllocError>
    ensures { IfOk result (λ out. out.items ≡ map spaced line.now) }
{
    let mut out = Vec::new(alloc);
    for byte in line {
        out.push(if is_line_end(*byte) { b' ' } else { *byte })?;
    }
    Ok(out)
}

fn expire_time(alloc: Global, name: CommandName) -> Result<Vec<u8>, AllocError>
    ensures { IfOk result (λ line. line.items ≡ codes "ERR invalid expire time in '"
        ++ text_of name ++ codes "' command") }
{
    let mut line = Vec::from_slice(alloc, b"ERR invalid expire time in '")?;
    line.extend_from_slice(name.text().as_bytes())?;
    line.extend_from_slice(b"' command")?;
    Ok(line)
}

/// A word, up to its first NUL, between two texts.
fn around(alloc: Global, before: &str, word: &Vec<u8>, after: &str) -> Result<Vec<u8>, AllocError>
    ensures { IfOk result (λ line. line.items
        ≡ before.now ++ c_string word.now.items ++ after.now) }
{
    let mut line = Vec::from_slice(alloc, before.as_bytes())?;
    line.extend_from_slice(c_string(word.as_slice()))?;
    line.extend_from_slice(after.as_bytes())?;
    Ok(line)
}

/// A name, and as much of its arguments as fits.
fn unknown_command(alloc: Global, words: &[Vec<u8>]) -> Result<Vec<u8>, AllocError>
    ensures { IfOk result (λ line. line.items ≡ unknown_line words.now) }
{
    let mut line = Vec::from_slice(alloc, b"ERR unknown command '")?;
    let Some((name, arguments)) = words.split_first() else {
        return Ok(line);
    };
    line.extend_from_slice(front(name.as_slice(), REPEATED))?;
    line.extend_from_slice(b"', with args beginning with: ")?;
    line.extend_from_slice(repeated(alloc, arguments)?.as_slice())?;
    Ok(line)
}

/// The first arguments in quotes, each with a space after it.
fn repeated(alloc: Global, arguments: &[Vec<u8>]) -> Result<Vec<u8>, AllocError>
    ensures { IfOk result (λ quoted. quoted.items ≡ quoted_after [] arguments.now) }
{
    let mut quoted = Vec::new(alloc);
    for argument in arguments {
        quote(&mut quoted, argument)?;
    }
    Ok(quoted)
}

/// Appends an argument in quotes, as far as there is room for it.
fn quote(quoted: &mut Vec<u8>, argument: &Vec<u8>) -> Result<(), AllocError>
    ensures { OnOk result (quoted.new.items ≡ with_quoted quoted.old.items argument.now) }
{
    if quoted.len() < REPEATED {
        let room = REPEATED - quoted.len();
        quoted.push(b'\'')?;
        quoted.extend_from_slice(front(argument.as_slice(), room))?;
        quoted.extend_from_slice(b"' ")?;
    }
    Ok(())
}

/// The bytes before the first NUL, as a server's `printf` has them.
fn c_string(bytes: &[u8]) -> &[u8]
    ensures { result.now ≡ c_string bytes.now }
{
    &bytes[..end_of(bytes, 0)]
}

/// The first bytes before a NUL, at most so many.
fn front(bytes: &[u8], most: usize) -> &[u8]
    ensures { result.now ≡ take most (c_string bytes.now) }
{
    let bytes = c_string(bytes);
    if bytes.len() <= most {
        bytes
    } else {
        &bytes[..most]
    }
}

fn unknown_subcommand(
    alloc: Global,
    name: CommandName,
    word: &Vec<u8>,
) -> Result<Vec<u8>, AllocError>
    ensures { IfOk result (λ line. line.items ≡ codes "ERR unknown subcommand '"
        ++ front word.now.items ++ codes "'. Try " ++ map to_ascii_uppercase (text_of name)
        ++ codes " HELP.") }
{
    let mut line = Vec::from_slice(alloc, b"ERR unknown subcommand '")?;
    line.extend_from_slice(front(word.as_slice(), REPEATED))?;
    line.extend_from_slice(b"'. Try ")?;
    line.extend_from_slice(uppercase(alloc, name.text().as_bytes())?.as_slice())?;
    line.extend_from_slice(b" HELP.")?;
    Ok(line)
}

/// The bytes with each letter in upper case.
fn uppercase(alloc: Global, text: &[u8]) -> Result<Vec<u8>, AllocError>
    ensures { IfOk result (λ out. out.items ≡ map to_ascii_uppercase text.now) }
{
    let mut out = Vec::new(alloc);
    for byte in text {
        out.push(byte.to_ascii_uppercase())?;
    }
    Ok(out)
}

fn wrong_number(alloc: Global, name: CommandName) -> Result<Vec<u8>, AllocError>
    ensures { IfOk result (λ line. line.items ≡ codes "ERR wrong number of arguments for '"
        ++ text_of name ++ codes "' command") }
{
    let mut line = Vec::from_slice(alloc, b"ERR wrong number of arguments for '")?;
    line.extend_from_slice(name.text().as_bytes())?;
    line.extend_from_slice(b"' command")?;
    Ok(line)
}

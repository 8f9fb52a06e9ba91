//! Addresses, and what a client says first.

use crate::commands::{command_of, is_comma};
use crate::queries::{MemoryLink, link_over, with_link};
use crate::rows::{Row, malformed, text_of};
use crate::texts::{add_part, answer_text, debug_text, quoted, refusal_text};
use resp_connect::{
    ConnectionInfo, Dial, GreetingError, IntoConnectionInfo, Reconnecting, RedisConnectionInfo,
    greet,
};
use resp_core::{ByteLink, ConnectionLike, IoKind, RedisError, RedisResult, Value};
use std::alloc::Global;
use std::io::Cursor;
use std::vec;

/// `address URL`
pub fn address(alloc: Global, row: &Row) -> RedisResult<String> {
    match row.words() {
        [url] => match info_of(alloc, url.as_slice()) {
            Ok(info) => described(alloc, &info),
            Err(error) => refusal_text(alloc, error),
        },
        _ => Err(malformed()),
    }
}

fn info_of(alloc: Global, url: &[u8]) -> RedisResult<ConnectionInfo> {
    text_of(url)?.into_connection_info(alloc)
}

/// Where, which database and version, and as whom.
fn described(alloc: Global, info: &ConnectionInfo) -> RedisResult<String> {
    let redis = info.redis_settings();
    let (addr, db, protocol) = (info.addr(), redis.db(), redis.protocol());
    let mut text = format!(in alloc; "{addr} db {db} {protocol:?}")?;
    add_name(alloc, &mut text, "user", redis.username())?;
    add_name(alloc, &mut text, "password", redis.password())?;
    add_name(alloc, &mut text, "name", redis.client_name())?;
    Ok(text)
}

/// Appends a name in quotes, where there is one.
fn add_name(alloc: Global, text: &mut String, what: &str, name: Option<&str>) -> RedisResult<()> {
    if let Some(name) = name {
        write!(text, " {what} {}", quoted(alloc, name.as_bytes())?)?;
    }
    Ok(())
}

/// `greet URL < BYTES`
pub fn greeting(alloc: Global, row: &Row) -> RedisResult<String> {
    match row.question()? {
        ([url], incoming) => {
            let info = info_of(alloc, url.as_slice())?;
            greeted(alloc, info.redis_settings(), incoming)
        }
        _ => Err(malformed()),
    }
}

/// The version that is spoken, or the step that was refused; then what was sent.
fn greeted(alloc: Global, redis: &RedisConnectionInfo, incoming: &[u8]) -> RedisResult<String> {
    let mut link = link_over(alloc, incoming)?;
    let answer = match greet(alloc, &mut link, redis) {
        Ok(version) => debug_text(alloc, &version),
        Err(error) => not_greeted(alloc, error),
    };
    with_link(alloc, answer?, link)
}

fn not_greeted(alloc: Global, error: GreetingError) -> RedisResult<String> {
    let step = step_of(alloc, &error)?;
    let refusal = refusal_text(alloc, RedisError::from(error))?;
    Ok(format!(in alloc; "{step}{refusal}")?)
}

/// The step that was refused, if one was.
fn step_of(alloc: Global, error: &GreetingError) -> RedisResult<String> {
    match error {
        GreetingError::Refused { step, error: _ } => Ok(format!(in alloc; "{step:?} ")?),
        GreetingError::Failed(_) => Ok(String::new(alloc)),
    }
}

/// Dials links in memory, one after another: on each these bytes come in. `-` is refused.
#[derive(Drop)]
struct Script {
    alloc: Global,
    links: vec::IntoIter<Vec<u8>>,
}

impl Dial for Script {
    type Link = MemoryLink;

    fn dial(&mut self) -> RedisResult<MemoryLink> {
        match self.links.next() {
            Some(incoming) if incoming.as_slice() != b"-".as_slice() => Ok(ByteLink::new(
                self.alloc,
                Cursor::new(incoming),
                Vec::new(self.alloc),
            )),
            _ => Err(RedisError::from(IoKind::ConnectionRefused)),
        }
    }
}

/// `reconnect COMMANDS < BYTES..`
pub fn reconnect(alloc: Global, row: &Row) -> RedisResult<String> {
    let mut parts = row.words().split(is_mark);
    let (Some(commands), Some(links)) = (parts.next(), parts.next()) else {
        return Err(malformed());
    };
    let mut con = Reconnecting::new(Script {
        alloc,
        links: copies(alloc, links)?.into_iter(),
    });
    let answers = ask_each(alloc, commands, &mut con)?;
    match con.into_parts() {
        (_script, Some(link)) => with_link(alloc, answers, link),
        _ => Ok(answers),
    }
}

/// What the commands are answered.
fn ask_each(
    alloc: Global,
    commands: &[Vec<u8>],
    con: &mut dyn ConnectionLike,
) -> RedisResult<String> {
    let mut answers = String::new(alloc);
    for command in commands.split(is_comma) {
        let answer = ask(alloc, command, con)?;
        add_part(&mut answers, answer.as_str())?;
    }
    Ok(answers)
}

/// What a command is answered.
fn ask(alloc: Global, command: &[Vec<u8>], con: &mut dyn ConnectionLike) -> RedisResult<String> {
    answer_text(alloc, command_of(alloc, command)?.query::<Value>(con))
}

fn copies(alloc: Global, words: &[Vec<u8>]) -> RedisResult<Vec<Vec<u8>>> {
    let mut copied = Vec::new(alloc);
    for word in words {
        copied.push(Vec::from_slice(alloc, word.as_slice())?)?;
    }
    Ok(copied)
}

fn is_mark(word: &Vec<u8>) -> bool {
    word.as_slice() == b"<".as_slice()
}

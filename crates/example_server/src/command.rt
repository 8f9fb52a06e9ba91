//! Commands.

use crate::clock::Time;
use crate::refusal::Refusal;
use resp_core::{Bytes, ProtocolVersion};

/// What a client asks for.
#[derive(Drop)]
pub enum Request {
    /// To answer a command, or to queue it in a transaction.
    Perform(Command),
    /// `MULTI`: to queue commands from here on.
    Multi,
    /// `EXEC`: to answer those that are queued.
    Exec,
    /// `EXEC` with arguments, which forgets those that are queued.
    ExecWithArguments,
    /// `DISCARD`: to forget those that are queued.
    Discard,
    /// `QUIT`: to answer nothing more.
    Quit,
    /// No command: its name or the number of its arguments is wrong, which fails a transaction.
    Unread(Refusal),
}

/// A command that may be queued.
#[derive(Drop)]
pub enum Command {
    /// One about keys.
    Keys(KeyCommand),
    /// One about the connection.
    Connection(ConnectionCommand),
    /// One whose arguments are refused.
    Refused(Refusal),
}

/// A command about keys.
#[derive(Drop)]
pub enum KeyCommand {
    /// `GET key`
    Get(Vec<u8>),
    /// `SET key value` with its options.
    Set(Vec<u8>, Bytes, SetOptions),
    /// `DEL key..`
    Del(Vec<Vec<u8>>),
    /// `EXISTS key..`
    Exists(Vec<Vec<u8>>),
    /// `INCR key`
    Incr(Vec<u8>),
    /// `EXPIRE key seconds`: the time, and to which keys it is given.
    Expire(Vec<u8>, Time, Reach),
    /// `HSET key`, with fields and their values.
    HSet(Vec<u8>, Vec<(Vec<u8>, Bytes)>),
    /// `HGETALL key`
    HGetAll(Vec<u8>),
}

/// To which keys `EXPIRE` gives a time.
#[derive(Clone, Copy)]
pub enum Reach {
    /// No option: to every key.
    EveryKey,
    /// `NX`: to keys that have none.
    WithoutTime,
    /// `XX`: to keys that have one.
    WithTime,
    /// `GT`: to keys that have an earlier one.
    WithEarlierTime,
    /// `XX` and `LT`: to keys that have a later one.
    WithLaterTime,
    /// `LT`: to keys that have a later one, or none.
    WithLaterOrNoTime,
}

/// A command about the connection.
#[derive(Drop)]
pub enum ConnectionCommand {
    /// `PING [message]`
    Ping(Option<Bytes>),
    /// `ECHO message`
    Echo(Bytes),
    /// `HELLO [version]`: replies in this version from here on.
    Hello(Option<ProtocolVersion>),
    /// `SELECT 0`
    Select,
    /// `CLIENT ID`
    Id,
    /// `CLIENT GETNAME`
    GetName,
    /// `CLIENT SETNAME name`; the empty name is none.
    SetName(Bytes),
    /// `CLIENT SETINFO`, which is forgotten.
    SetInfo,
    /// `COMMAND`
    Commands,
    /// `COMMAND DOCS`
    Documents,
}

/// The options of `SET`.
#[derive(Clone, Copy)]
pub struct SetOptions {
    /// When the key is set.
    pub condition: Condition,
    /// `GET`: whether the reply is the string that the key held before.
    pub get: bool,
    /// When the key expires.
    pub expiry: Expiry,
}

/// When a key that is set expires.
#[derive(Clone, Copy)]
pub enum Expiry {
    /// Never.
    Never,
    /// `KEEPTTL`: when it would have before.
    Kept,
    /// `EX`, `PX`, `EXAT` or `PXAT`: at this time.
    At(Time),
}

/// When a key is set.
#[derive(Clone, Copy)]
pub enum Condition {
    /// In any case.
    Always,
    /// `NX`: only if the key is not there.
    IfAbsent,
    /// `XX`: only if the key is there.
    IfPresent,
}

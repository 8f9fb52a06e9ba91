//! What a client is answered, and its transactions.

ghost use Rattle.std.specs.Prelude.{◌≡◌, IfOk};
ghost use Rattle.example_server.specs.Sessions.{Answers, Runs, failed, after_multi};
ghost use Rattle.example_server.specs.Sessions.{multi_reply, discard_reply};

use crate::command::{Command, Request};
use crate::connection::Connection;
use crate::refusal::Refusal;
use crate::reply::{Answer, Reply};
use crate::state::{State, perform};
use resp_core::{Bytes, Items, ProtocolVersion};
use std::alloc::{AllocError, Global};
use std::collections::BTreeMap;
use std::mem;

/// A client, and all that the server keeps.
#[derive(Drop)]
pub struct Session {
    /// What commands read and change.
    pub state: State,
    /// What `MULTI` began.
    pub transaction: Transaction,
}

/// What becomes of a command.
#[derive(Drop)]
pub enum Transaction {
    /// It is answered at once.
    Closed,
    /// It is queued after these.
    Open(Items<Command>),
    /// It is refused with the transaction, one of whose commands was not read.
    Failed,
}

impl Session {
    /// A session with no keys, in RESP2.
    pub fn new(alloc: Global) -> Session {
        Session {
            state: State {
                store: BTreeMap::new(alloc),
                connection: Connection {
                    name: Bytes::new(alloc),
                    protocol: ProtocolVersion::RESP2,
                },
            },
            transaction: Transaction::Closed,
        }
    }
}

/// Answers a request. Fails only with out of memory.
pub fn answer(alloc: Global, session: &mut Session, request: Request) -> Result<Answer, AllocError>
    ensures { IfOk result (Answers session.old session.new request) }
{
    match request {
        Request::Perform(command) => perform_or_queue(alloc, session, command),
        Request::Exec => exec(alloc, session),
        Request::Multi => Ok(Answer::Single(multi(alloc, &mut session.transaction))),
        Request::Discard => Ok(Answer::Single(discard(&mut session.transaction))),
        Request::ExecWithArguments => {
            session.transaction = Transaction::Closed;
            Ok(Answer::Single(Reply::Refused(Refusal::ExecWithArguments)))
        }
        Request::Quit => Ok(Answer::Single(Reply::Okay)),
        Request::Unread(refusal) => {
            fail(&mut session.transaction);
            Ok(Answer::Single(Reply::Refused(refusal)))
        }
    }
}

/// Answers a command at once, or queues it in a transaction.
fn perform_or_queue(
    alloc: Global,
    session: &mut Session,
    command: Command,
) -> Result<Answer, AllocError>
    ensures { IfOk result (Answers session.old session.new (Request.Perform command)) }
{
    match &mut session.transaction {
        Transaction::Closed => { Ok(Answer::Single(perform(alloc, &mut session.state, command)?)) }
        Transaction::Open(commands) => {
            commands.push(command)?;
            Ok(Answer::Queued)
        }
        Transaction::Failed => Ok(Answer::Queued),
    }
}

/// `MULTI`
fn multi(alloc: Global, transaction: &mut Transaction) -> Reply
    ensures reply { result ≡ multi_reply transaction.old }
    ensures after { transaction.new ≡ after_multi transaction.old }
{
    match transaction {
        Transaction::Closed => {
            *transaction = Transaction::Open(Items::new(alloc));
            Reply::Okay
        }
        _ => Reply::Refused(Refusal::NestedMulti),
    }
}

/// `DISCARD`
fn discard(transaction: &mut Transaction) -> Reply
    ensures reply { result ≡ discard_reply transaction.old }
    ensures after { transaction.new ≡ Transaction.Closed }
{
    match mem::replace(transaction, Transaction::Closed) {
        Transaction::Closed => Reply::Refused(Refusal::DiscardWithoutMulti),
        _ => Reply::Okay,
    }
}

/// Fails the transaction, if there is one.
fn fail(transaction: &mut Transaction)
    ensures { transaction.new ≡ failed transaction.old }
{
    if let Transaction::Open(_) = transaction {
        *transaction = Transaction::Failed;
    }
}

/// `EXEC`
fn exec(alloc: Global, session: &mut Session) -> Result<Answer, AllocError>
    ensures { IfOk result (Answers session.old session.new Request.Exec) }
{
    match mem::replace(&mut session.transaction, Transaction::Closed) {
        Transaction::Closed => Ok(Answer::Single(Reply::Refused(Refusal::ExecWithoutMulti))),
        Transaction::Open(commands) => {
            Ok(Answer::Several(run(alloc, &mut session.state, commands.into_vec())?))
        }
        Transaction::Failed => Ok(Answer::Single(Reply::Refused(Refusal::ExecAborted))),
    }
}

/// Answers commands one after another.
fn run(alloc: Global, state: &mut State, commands: Vec<Command>) -> Result<Items<Reply>, AllocError>
    ensures { IfOk result (Runs state.old state.new commands.items) }
{
    let mut replies = Items::new(alloc);
    for command in commands {
        replies.push(perform(alloc, state, command)?)?;
    }
    Ok(replies)
}

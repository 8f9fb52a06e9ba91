//! What a client says first over a connection.

ghost use Rattle.std.specs.Prelude.{◌≡◌, ◌≢◌, ◌↔◌, ◌∷◌, [], false, List, Ok, IfOk, OnOk, IsTrue};
ghost use Rattle.resp_command.specs.Connection.{routes};
ghost use Rattle.resp_connect.specs.Greeting.{FallsBack, Greeted, Greets, IsLackOfHello, Said, Says};
ghost use Rattle.resp_connect.specs.Greeting.{after_hello, auth, hello, in_resp2, refusals, select};
ghost use Rattle.resp_connect.specs.Greeting.{set_info, set_name, verdict};
ghost use Rattle.resp_connect.specs.declared.protocol.ProtocolChoice.TheVariants as ProtocolChoice;
ghost use Rattle.resp_errors.specs.Memory.{OnlyMemory};
ghost use Rattle.resp_connect.specs.Steps.{Adds, Holds};

use crate::info::RedisConnectionInfo;
use crate::protocol::ProtocolChoice;
use resp_args::ProtocolVersion;
use resp_command::{Cmd, ConnectionLike, cmd};
use resp_value::{RedisError, RedisResult, ServerError, Value};
use std::alloc::Global;

/// A step of a greeting.
#[derive(Debug, Clone, Copy, PartialEq, Eq)]
pub enum GreetingStep {
    /// `HELLO 3`, with `AUTH` and `SETNAME` where there is a password or a name.
    Hello,
    /// `AUTH`.
    Auth,
    /// `CLIENT SETNAME`.
    SetName,
    /// `SELECT`.
    Select,
    /// `CLIENT SETINFO LIB-NAME`, which a server before 7.2 refuses.
    SetInfo,
}

/// Why a connection isn't greeted. It isn't to be used.
#[derive(Debug, Drop)]
pub enum GreetingError {
    /// The server refused a step.
    Refused {
        /// The first step that it refused.
        step: GreetingStep,
        /// Its error, as `WRONGPASS`, `NOAUTH`, `NOPROTO`, or `ERR` for a database out of range.
        error: ServerError,
    },
    /// The connection failed, or there was no memory.
    Failed(RedisError),
}

impl From<RedisError> for GreetingError {
    ghost use Rattle.std.specs.Prelude.{◌≡◌};
    ghost use Rattle.resp_connect.specs.declared.greeting.GreetingError.TheVariants.{Failed};

    ghost from_gives = { λ e f. f ≡ Failed e };

    fn from(error: RedisError) -> GreetingError {
        GreetingError::Failed(error)
    }
}

/// The server's error, or that of the connection.
impl From<GreetingError> for RedisError {
    ghost use Rattle.std.specs.Prelude.{◌≡◌};
    ghost use Rattle.resp_connect.specs.Greeting.{error_of};

    ghost from_gives = { λ e f. f ≡ error_of e };

    fn from(error: GreetingError) -> RedisError {
        match error {
            GreetingError::Refused { step: _, error } => RedisError::Server(error),
            GreetingError::Failed(error) => error,
        }
    }
}

impl GreetingError {
    /// Whether the server has no `HELLO`, or no RESP3: the code is `NOPROTO`, or `ERR` with
    /// `unknown command` before the rest.
    pub fn lacks_hello(&self) -> bool
        ensures { IsTrue result ↔ IsLackOfHello self.now }
    {
        match self {
            GreetingError::Refused { step: _, error } => match error.code() {
                "NOPROTO" => true,
                "ERR" => match error.details() {
                    Some(details) => details.as_bytes().starts_with(b"unknown command"),
                    None => false,
                },
                _ => false,
            },
            GreetingError::Failed(_) => false,
        }
    }
}

/// Commands that are sent at once.
#[derive(Drop)]
struct Steps {
    alloc: Global,
    bytes: Vec<u8>,
    steps: Vec<GreetingStep>,
}

impl Steps {
    fn new(alloc: Global) -> Steps
        ensures { Holds result.bytes.items result.steps.items [] }
    {
        Steps {
            alloc,
            bytes: Vec::new(alloc),
            steps: Vec::new(alloc),
        }
    }

    /// `HELLO 3 [AUTH user password] [SETNAME name]`.
    fn hello(alloc: Global, settings: &RedisConnectionInfo) -> RedisResult<Steps>
        ensures made { IfOk result (λ s. Holds s.bytes.items s.steps.items (hello settings.now)) }
        ensures memory { OnlyMemory result }
    {
        let mut hello = cmd(alloc, "HELLO")?;
        hello.push_arg("3")?;
        if let Some(password) = settings.password() {
            hello.push_arg("AUTH")?;
            hello.push_arg(settings.username().unwrap_or("default"))?;
            hello.push_arg(password)?;
        }
        if let Some(name) = settings.client_name() {
            hello.push_arg("SETNAME")?;
            hello.push_arg(name)?;
        }
        let mut steps = Steps::new(alloc);
        steps.say(GreetingStep::Hello, hello)?;
        Ok(steps)
    }

    /// What follows `HELLO`.
    fn after_hello(alloc: Global, settings: &RedisConnectionInfo) -> RedisResult<Steps>
        ensures made { IfOk result (λ s. Holds s.bytes.items s.steps.items (after_hello settings.now)) }
        ensures memory { OnlyMemory result }
    {
        let mut steps = Steps::new(alloc);
        steps.select(settings)?;
        steps.set_info()?;
        Ok(steps)
    }

    /// All of a greeting in RESP2.
    fn in_resp2(alloc: Global, settings: &RedisConnectionInfo) -> RedisResult<Steps>
        ensures made { IfOk result (λ s. Holds s.bytes.items s.steps.items (in_resp2 settings.now)) }
        ensures memory { OnlyMemory result }
    {
        let mut steps = Steps::new(alloc);
        steps.auth(settings)?;
        steps.set_name(settings)?;
        steps.select(settings)?;
        steps.set_info()?;
        Ok(steps)
    }

    fn auth(&mut self, settings: &RedisConnectionInfo) -> RedisResult<()>
        ensures added { OnOk result (Adds self.old.bytes.items self.old.steps.items
            self.new.bytes.items self.new.steps.items
            (auth settings.now.username settings.now.password)) }
        ensures memory { OnlyMemory result }
    {
        let Some(password) = settings.password() else {
            return Ok(());
        };
        let mut auth = cmd(self.alloc, "AUTH")?;
        if let Some(username) = settings.username() {
            auth.push_arg(username)?;
        }
        auth.push_arg(password)?;
        self.say(GreetingStep::Auth, auth)
    }

    fn set_name(&mut self, settings: &RedisConnectionInfo) -> RedisResult<()>
        ensures added { OnOk result (Adds self.old.bytes.items self.old.steps.items
            self.new.bytes.items self.new.steps.items (set_name settings.now.client_name)) }
        ensures memory { OnlyMemory result }
    {
        let Some(name) = settings.client_name() else {
            return Ok(());
        };
        let mut set_name = cmd(self.alloc, "CLIENT")?;
        set_name.push_arg("SETNAME")?;
        set_name.push_arg(name)?;
        self.say(GreetingStep::SetName, set_name)
    }

    fn select(&mut self, settings: &RedisConnectionInfo) -> RedisResult<()>
        ensures added { OnOk result (Adds self.old.bytes.items self.old.steps.items
            self.new.bytes.items self.new.steps.items (select settings.now.db)) }
        ensures memory { OnlyMemory result }
    {
        let db = settings.db();
        if db == 0 {
            return Ok(());
        }
        let mut select = cmd(self.alloc, "SELECT")?;
        select.push_arg(db)?;
        self.say(GreetingStep::Select, select)
    }

    fn set_info(&mut self) -> RedisResult<()>
        ensures added { OnOk result (Adds self.old.bytes.items self.old.steps.items
            self.new.bytes.items self.new.steps.items set_info) }
        ensures memory { OnlyMemory result }
    {
        let mut set_info = cmd(self.alloc, "CLIENT")?;
        set_info.push_arg("SETINFO")?;
        set_info.push_arg("LIB-NAME")?;
        set_info.push_arg("resp_core")?;
        self.say(GreetingStep::SetInfo, set_info)
    }

    /// One command more.
    fn say(&mut self, step: GreetingStep, command: Cmd) -> RedisResult<()>
        ensures added { OnOk result (Adds self.old.bytes.items self.old.steps.items
            self.new.bytes.items self.new.steps.items
            (record { step = step; args = command.args } ∷ [])) }
        ensures memory { OnlyMemory result }
    {
        command.write_packed_command(&mut self.bytes)?;
        self.steps.push(step)?;
        Ok(())
    }

    /// Sends them, and takes their replies.
    fn send<C: ConnectionLike>(self, con: &mut C) -> Result<(), GreetingError>
        ensures { (said : List Said) → Holds self.bytes.items self.steps.items said
            → Says (C.connection con.old) (C.connection con.new) said (tt {0}) result }
    {
        let replies = con.req_packed_commands(self.bytes.as_slice(), 0, self.steps.len())?;
        accept(self.steps.as_slice(), replies)
    }
}

/// Whether the replies to the steps let a greeting go on.
fn accept(steps: &[GreetingStep], replies: Vec<Value>) -> Result<(), GreetingError>
    ensures { result ≡ verdict (tt {0}) (refusals steps.now replies.items) }
{
    let mut asked = steps.iter();
    for reply in replies {
        match (asked.next(), reply) {
            (Some(GreetingStep::SetInfo), _) => {}
            (Some(step), Value::ServerError(error)) => {
                return Err(GreetingError::Refused { step: *step, error });
            }
            _ => {}
        }
    }
    Ok(())
}

/// Greets a server: says which version of the protocol is to be spoken, as whom, in which database
/// and under which name. Answers the version that the server speaks from now on.
///
/// In RESP3 `HELLO` is sent alone, since the server may have none, and what follows it is sent at
/// once; in RESP2 all is. A connection that isn't greeted isn't to be used: some of its steps may
/// have been done.
pub fn greet<C: ConnectionLike>(
    alloc: Global,
    con: &mut C,
    settings: &RedisConnectionInfo,
) -> Result<ProtocolVersion, GreetingError>
    ensures says { Greets (C.connection con.old) (C.connection con.new) settings.now result }
    ensures greeted { (C.connection con.old).broken ≡ false
        → (C.connection con.old).policy ≢ routes → IfOk result
        (Greeted (C.connection con.old) (C.connection con.new) settings.now) }
{
    say(alloc, con, settings)
}

fn say<C: ConnectionLike>(
    alloc: Global,
    con: &mut C,
    settings: &RedisConnectionInfo,
) -> Result<ProtocolVersion, GreetingError>
    ensures { Greets (C.connection con.old) (C.connection con.new) settings.now result }
{
    let in_resp2 = Steps::in_resp2(alloc, settings)?;
    if is_resp2(settings.protocol()) {
        in_resp2.send(con)?;
        return Ok(ProtocolVersion::RESP2);
    }
    let hello = Steps::hello(alloc, settings)?;
    let rest = Steps::after_hello(alloc, settings)?;
    let Err(error) = hello.send(con) else {
        rest.send(con)?;
        return Ok(ProtocolVersion::RESP3);
    };
    if falls_back(settings.protocol(), &error) {
        drop(error);
        in_resp2.send(con)?;
        return Ok(ProtocolVersion::RESP2);
    }
    Err(error)
}

fn is_resp2(choice: ProtocolChoice) -> bool
    ensures { IsTrue result ↔ (choice ≡ ProtocolChoice.RESP2) }
{
    matches!(choice, ProtocolChoice::RESP2)
}

/// Whether a client that was refused speaks RESP2.
fn falls_back(choice: ProtocolChoice, error: &GreetingError) -> bool
    ensures { IsTrue result ↔ FallsBack choice error.now }
{
    match choice {
        ProtocolChoice::PreferRESP3 => error.lacks_hello(),
        _ => false,
    }
}

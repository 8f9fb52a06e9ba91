//! Names of commands.

ghost use Rattle.std.specs.Prelude.{◌≡◌};
ghost use Rattle.example_server.specs.Names.{text_of};

/// A command, or a subcommand, that the server knows.
#[derive(Clone, Copy)]
pub enum CommandName {
    /// `PING`
    Ping,
    /// `ECHO`
    Echo,
    /// `HELLO`
    Hello,
    /// `SELECT`
    Select,
    /// `CLIENT`
    Client,
    /// `CLIENT ID`
    ClientId,
    /// `CLIENT GETNAME`
    ClientGetName,
    /// `CLIENT SETNAME`
    ClientSetName,
    /// `CLIENT SETINFO`
    ClientSetInfo,
    /// `COMMAND`
    Command,
    /// `COMMAND DOCS`
    CommandDocs,
    /// `GET`
    Get,
    /// `SET`
    Set,
    /// `DEL`
    Del,
    /// `EXISTS`
    Exists,
    /// `INCR`
    Incr,
    /// `EXPIRE`
    Expire,
    /// `HSET`
    HSet,
    /// `HGETALL`
    HGetAll,
    /// `MULTI`
    Multi,
    /// `EXEC`
    Exec,
    /// `DISCARD`
    Discard,
    /// `QUIT`
    Quit,
}

static COMMANDS: [CommandName; 18] = [
    CommandName::Ping,
    CommandName::Echo,
    CommandName::Hello,
    CommandName::Select,
    CommandName::Client,
    CommandName::Command,
    CommandName::Get,
    CommandName::Set,
    CommandName::Del,
    CommandName::Exists,
    CommandName::Incr,
    CommandName::Expire,
    CommandName::HSet,
    CommandName::HGetAll,
    CommandName::Multi,
    CommandName::Exec,
    CommandName::Discard,
    CommandName::Quit,
];

impl CommandName {
    /// The command of this name; upper and lower case are the same.
    pub fn of_command(word: &[u8]) -> Option<CommandName> {
        for name in &COMMANDS {
            if word.eq_ignore_ascii_case(name.text().as_bytes()) {
                return Some(*name);
            }
        }
        None
    }

    /// The subcommand of this name.
    pub fn of_subcommand(&self, word: &[u8]) -> Option<CommandName> {
        match self {
            CommandName::Client => client_subcommand(word),
            CommandName::Command if word.eq_ignore_ascii_case(b"docs") => {
                Some(CommandName::CommandDocs)
            }
            _ => None,
        }
    }

    /// Whether its first argument names a subcommand.
    pub fn has_subcommands(&self) -> bool {
        matches!(self, CommandName::Client | CommandName::Command)
    }

    /// The name, in lower case, as errors have it.
    pub fn text(&self) -> &'static str
        ensures { result.now ≡ text_of self.now }
    {
        match self {
            CommandName::Ping => "ping",
            CommandName::Echo => "echo",
            CommandName::Hello => "hello",
            CommandName::Select => "select",
            CommandName::Client => "client",
            CommandName::ClientId => "client|id",
            CommandName::ClientGetName => "client|getname",
            CommandName::ClientSetName => "client|setname",
            CommandName::ClientSetInfo => "client|setinfo",
            CommandName::Command => "command",
            CommandName::CommandDocs => "command|docs",
            CommandName::Get => "get",
            CommandName::Set => "set",
            CommandName::Del => "del",
            CommandName::Exists => "exists",
            CommandName::Incr => "incr",
            CommandName::Expire => "expire",
            CommandName::HSet => "hset",
            CommandName::HGetAll => "hgetall",
            CommandName::Multi => "multi",
            CommandName::Exec => "exec",
            CommandName::Discard => "discard",
            CommandName::Quit => "quit",
        }
    }
}

fn client_subcommand(word: &[u8]) -> Option<CommandName> {
    if word.eq_ignore_ascii_case(b"id") {
        Some(CommandName::ClientId)
    } else if word.eq_ignore_ascii_case(b"getname") {
        Some(CommandName::ClientGetName)
    } else if word.eq_ignore_ascii_case(b"setname") {
        Some(CommandName::ClientSetName)
    } else if word.eq_ignore_ascii_case(b"setinfo") {
        Some(CommandName::ClientSetInfo)
    } else {
        None
    }
}

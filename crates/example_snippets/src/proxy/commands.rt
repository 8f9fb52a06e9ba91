//! Which commands a proxy can't treat as a request with one reply, from the documents of
//! redis-server 7.0: its commands' pages, "Pub/Sub" and the RESP specification.

ghost use Rattle.std.specs.Prelude.{◌≡◌};
ghost use Rattle.example_snippets.specs.Proxied.{handling_of, is_none_of_one, has_subcommand, is_named, is_pubsub, subscribing};

use resp_core::ProtocolVersion;

/// What is known of a client of a proxy.
#[derive(Clone, Copy)]
pub struct ClientState {
    /// The version in which it is answered, which is the server's, too.
    pub protocol: ProtocolVersion,
    /// Whether the server queues its commands.
    pub in_transaction: bool,
    /// Whether nothing more is answered.
    pub is_closed: bool,
}

/// What is done with a command.
#[derive(Clone, Copy, PartialEq, Eq)]
pub enum Handling {
    /// It has one reply, which is handed on.
    Forward,
    /// `HELLO`: so it has, in the version that it names.
    Hello,
    /// `RESET`: so it has, and RESP2 holds from then on.
    Reset,
    /// `QUIT`: so it has, and the connection is closed.
    Quit,
    /// `SUBSCRIBE` and its like in RESP3: pushes answer it, one for each channel.
    Subscribe,
    /// It is refused, and nothing is sent on.
    Refuse,
}

/// What is done with a command of these words. The name comes first, in any case.
pub fn handling_of(client: &ClientState, words: &[Vec<u8>]) -> Handling
    ensures { result ≡ handling_of client.now words.now }
{
    if words.is_empty() || is_none_of_one(words) {
        return Handling::Refuse;
    }
    if is_pubsub(words) {
        return subscribing(client, words.len());
    }
    if is_named(words, "HELLO") {
        return if client.in_transaction {
            Handling::Refuse
        } else {
            Handling::Hello
        };
    }
    if is_named(words, "RESET") {
        Handling::Reset
    } else if is_named(words, "QUIT") {
        Handling::Quit
    } else {
        Handling::Forward
    }
}

/// In RESP2 and in a transaction the replies of a subscription aren't pushes; without a channel it
/// may have none.
fn subscribing(client: &ClientState, count: usize) -> Handling
    ensures { result ≡ subscribing client.now count }
{
    match client.protocol {
        ProtocolVersion::RESP3 => if count >= 2 && !client.in_transaction {
            Handling::Subscribe
        } else {
            Handling::Refuse
        },
        ProtocolVersion::RESP2 => Handling::Refuse,
    }
}

/// Commands that are answered by pushes.
fn is_pubsub(words: &[Vec<u8>]) -> bool
    ensures { result ≡ is_pubsub words.now }
{
    is_named(words, "SUBSCRIBE")
        || is_named(words, "PSUBSCRIBE")
        || is_named(words, "SSUBSCRIBE")
        || is_named(words, "UNSUBSCRIBE")
        || is_named(words, "PUNSUBSCRIBE")
        || is_named(words, "SUNSUBSCRIBE")
}

/// Commands after which a stream of replies comes, or none: `MONITOR`, those of replicas,
/// `SHUTDOWN`, `CLIENT REPLY` and the debugger of scripts.
fn is_none_of_one(words: &[Vec<u8>]) -> bool
    ensures { result ≡ is_none_of_one words.now }
{
    is_named(words, "MONITOR")
        || is_named(words, "SYNC")
        || is_named(words, "PSYNC")
        || is_named(words, "REPLCONF")
        || is_named(words, "SHUTDOWN")
        || is_named(words, "DEBUG")
        || (is_named(words, "CLIENT") && has_subcommand(words, "REPLY"))
        || (is_named(words, "SCRIPT") && has_subcommand(words, "DEBUG"))
}

/// Whether the first word is the text, in any case.
fn is_named(words: &[Vec<u8>], text: &str) -> bool
    ensures { result ≡ is_named words.now text.now }
{
    match words {
        [name, ..] => name.as_slice().eq_ignore_ascii_case(text.as_bytes()),
        [] => false,
    }
}

/// Whether the second word is.
fn has_subcommand(words: &[Vec<u8>], text: &str) -> bool
    ensures { result ≡ has_subcommand words.now text.now }
{
    match words {
        [_, word, ..] => word.as_slice().eq_ignore_ascii_case(text.as_bytes()),
        _ => false,
    }
}

impl ClientState {
    /// Notes what a reply to `HELLO`, `RESET` or `QUIT` says.
    pub fn note(&mut self, handling: Handling, words: &[Vec<u8>], is_error: bool) {
        match handling {
            Handling::Quit => self.is_closed = true,
            Handling::Hello if !is_error => self.protocol = version_in(self.protocol, words),
            Handling::Reset if !is_error => {
                self.protocol = ProtocolVersion::RESP2;
                self.in_transaction = false;
            }
            _ => {}
        }
    }

    /// Notes where a transaction begins and ends.
    pub fn note_transaction(&mut self, words: &[Vec<u8>], is_error: bool) {
        if is_named(words, "EXEC") || (is_named(words, "DISCARD") && !is_error) {
            self.in_transaction = false;
        } else if is_named(words, "MULTI") && !is_error {
            self.in_transaction = true;
        }
    }
}

/// The version that `HELLO` names; the one that holds, where it names none.
fn version_in(protocol: ProtocolVersion, words: &[Vec<u8>]) -> ProtocolVersion {
    if has_subcommand(words, "2") {
        ProtocolVersion::RESP2
    } else if has_subcommand(words, "3") {
        ProtocolVersion::RESP3
    } else {
        protocol
    }
}

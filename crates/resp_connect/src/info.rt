//! Where a client connects to, and how it greets the server.

ghost use Rattle.std.specs.Prelude.{◌≡◌, IfOk, Some};
ghost use Rattle.std.specs.Option.{option_copied};
ghost use Rattle.resp_connect.specs.Shown.{hidden};
ghost use Rattle.resp_connect.specs.Targets.{default_settings};

use crate::address::ConnectionAddr;
use crate::protocol::ProtocolChoice;
use resp_containers::Text;
use std::alloc::{AllocError, Global};
use std::fmt;
use std::marker::Model;

/// How a client greets a server: as whom, in which database, and in which version of the protocol.
///
/// The default is database 0 in RESP2, with neither a user, a password nor a name. What a setter
/// doesn't name stays, as in `RedisConnectionInfo::default().set_db(2).set_password(alloc, "secret")?`.
/// `Debug` shows `***` in place of the password, and no error has it.
pub struct RedisConnectionInfo {
    db: i64,
    username: Option<Text>,
    password: Option<Text>,
    protocol: ProtocolChoice,
    client_name: Option<Text>,
}

/// By hand, so that the proof of a function that owns one has a call where it is dropped, and not a
/// case for each part.
impl Drop for RedisConnectionInfo {
    #[inline(always)]
    fn drop(self) {
        let RedisConnectionInfo {
            db: _,
            username: _,
            password: _,
            protocol: _,
            client_name: _,
        } = self;
    }
}

impl Model for RedisConnectionInfo {
    ghost use Rattle.resp_connect.specs.Targets.{Settings};

    ghost Value = { Settings };

    ghost view = { λ s. record {
      db = s.db;
      username = s.username;
      password = s.password;
      protocol = s.protocol;
      client_name = s.client_name;
    } };
}

/// Database 0, RESP2, and neither a user, a password nor a name.
impl Default for RedisConnectionInfo {
    ghost is_default = { λ s. s ≡ default_settings };

    fn default() -> RedisConnectionInfo {
        RedisConnectionInfo {
            db: 0,
            username: None,
            password: None,
            protocol: ProtocolChoice::RESP2,
            client_name: None,
        }
    }
}

impl RedisConnectionInfo {
    pub(crate) fn of(
        db: i64,
        username: Option<Text>,
        password: Option<Text>,
        protocol: ProtocolChoice,
        client_name: Option<Text>,
    ) -> RedisConnectionInfo
        ensures { result ≡ record {
          db = db;
          username = username;
          password = password;
          protocol = protocol;
          client_name = client_name;
        } }
    {
        RedisConnectionInfo {
            db,
            username,
            password,
            protocol,
            client_name,
        }
    }

    /// The number of the database. A server has none below 0.
    pub fn db(&self) -> i64
        ensures { result ≡ self.now.db }
    {
        self.db
    }

    /// The user, if one is named.
    pub fn username(&self) -> Option<&str>
        ensures { option_copied result ≡ self.now.username }
    {
        text_of(&self.username)
    }

    /// The password, if there is one.
    pub fn password(&self) -> Option<&str>
        ensures { option_copied result ≡ self.now.password }
    {
        text_of(&self.password)
    }

    /// The version of the protocol.
    pub fn protocol(&self) -> ProtocolChoice
        ensures { result ≡ self.now.protocol }
    {
        self.protocol
    }

    /// The name that the connection takes at the server, if it takes one.
    pub fn client_name(&self) -> Option<&str>
        ensures { option_copied result ≡ self.now.client_name }
    {
        text_of(&self.client_name)
    }

    /// The settings with another database.
    pub fn set_db(mut self, db: i64) -> RedisConnectionInfo
        ensures { result ≡ record self { db = db } }
    {
        self.db = db;
        self
    }

    /// The settings with another user. Fails only when out of memory; they are then dropped.
    pub fn set_username(
        mut self,
        alloc: Global,
        username: &str,
    ) -> Result<RedisConnectionInfo, AllocError>
        ensures { IfOk result (λ s. s ≡ record self { username = Some username.now }) }
    {
        self.username = Some(Text::from_str(alloc, username)?);
        Ok(self)
    }

    /// The settings with another password. Fails only when out of memory; they are then dropped.
    pub fn set_password(
        mut self,
        alloc: Global,
        password: &str,
    ) -> Result<RedisConnectionInfo, AllocError>
        ensures { IfOk result (λ s. s ≡ record self { password = Some password.now }) }
    {
        self.password = Some(Text::from_str(alloc, password)?);
        Ok(self)
    }

    /// The settings with another version of the protocol.
    pub fn set_protocol(mut self, protocol: ProtocolChoice) -> RedisConnectionInfo
        ensures { result ≡ record self { protocol = protocol } }
    {
        self.protocol = protocol;
        self
    }

    /// The settings with another name for the connection. Fails only when out of memory; they are
    /// then dropped.
    pub fn set_client_name(
        mut self,
        alloc: Global,
        client_name: &str,
    ) -> Result<RedisConnectionInfo, AllocError>
        ensures { IfOk result (λ s. s ≡ record self { client_name = Some client_name.now }) }
    {
        self.client_name = Some(Text::from_str(alloc, client_name)?);
        Ok(self)
    }

    /// Equal settings. Fails only when out of memory.
    pub fn try_clone(&self, alloc: Global) -> Result<RedisConnectionInfo, AllocError>
        ensures { IfOk result (λ s. s ≡ self.now) }
    {
        Ok(RedisConnectionInfo {
            db: self.db,
            username: clone_text(alloc, &self.username)?,
            password: clone_text(alloc, &self.password)?,
            protocol: self.protocol,
            client_name: clone_text(alloc, &self.client_name)?,
        })
    }
}

/// With `***` in the password's place.
impl fmt::Debug for RedisConnectionInfo {
    ghost use Rattle.resp_connect.specs.Shown.{settings_text};

    ghost debug_output = { settings_text };

    fn fmt<W: fmt::Write>(&self, f: &mut fmt::Formatter<W>) -> fmt::Result {
        let db = self.db;
        let username = self.username();
        let password = hidden(&self.password);
        let protocol = self.protocol.name();
        let client_name = self.client_name();
        write!(
            f,
            "RedisConnectionInfo {{ db: {db}, username: {username:?}, password: {password}, \
             protocol: {protocol}, client_name: {client_name:?} }}",
        )
    }
}

/// What is shown of a secret.
fn hidden(secret: &Option<Text>) -> &'static str
    ensures { result.now ≡ hidden secret.now }
{
    match secret {
        Some(_) => "Some(***)",
        None => "None",
    }
}

fn text_of(text: &Option<Text>) -> Option<&str>
    ensures { option_copied result ≡ text.now }
{
    match text {
        Some(text) => Some(text.as_str()),
        None => None,
    }
}

fn clone_text(alloc: Global, text: &Option<Text>) -> Result<Option<Text>, AllocError>
    ensures { IfOk result (λ copy. copy ≡ text.now) }
{
    match text {
        Some(text) => Ok(Some(text.try_clone(alloc)?)),
        None => Ok(None),
    }
}

/// Where a server is, and how a client greets it.
///
/// It is made by [`IntoConnectionInfo`](crate::IntoConnectionInfo): of a URL, an address, or a host
/// and a port, as in `"redis://localhost:6380/2?protocol=resp3".into_connection_info(alloc)?`. `Debug`
/// shows `***` in place of the password.
pub struct ConnectionInfo {
    addr: ConnectionAddr,
    redis: RedisConnectionInfo,
}

/// By hand, for the reason of [`RedisConnectionInfo`]'s.
impl Drop for ConnectionInfo {
    #[inline(always)]
    fn drop(self) {
        let ConnectionInfo { addr: _, redis: _ } = self;
    }
}

impl Model for ConnectionInfo {
    ghost use Rattle.resp_connect.specs.Targets.{Target};

    ghost Value = { Target };

    ghost view = { λ t. record { addr = t.addr; redis = t.redis } };
}

impl ConnectionInfo {
    pub(crate) fn of(addr: ConnectionAddr, redis: RedisConnectionInfo) -> ConnectionInfo
        ensures { result ≡ record { addr = addr; redis = redis } }
    {
        ConnectionInfo { addr, redis }
    }

    /// Where the server is.
    pub fn addr(&self) -> &ConnectionAddr
        ensures { result.now ≡ self.now.addr }
    {
        &self.addr
    }

    /// How a client greets it.
    pub fn redis_settings(&self) -> &RedisConnectionInfo
        ensures { result.now ≡ self.now.redis }
    {
        &self.redis
    }

    /// The same server greeted in another way.
    pub fn set_redis_settings(mut self, redis: RedisConnectionInfo) -> ConnectionInfo
        ensures { result ≡ record self { redis = redis } }
    {
        self.redis = redis;
        self
    }

    /// Another server greeted in the same way.
    pub fn set_addr(mut self, addr: ConnectionAddr) -> ConnectionInfo
        ensures { result ≡ record self { addr = addr } }
    {
        self.addr = addr;
        self
    }

    /// An equal value. Fails only when out of memory.
    pub fn try_clone(&self, alloc: Global) -> Result<ConnectionInfo, AllocError>
        ensures { IfOk result (λ t. t ≡ self.now) }
    {
        Ok(ConnectionInfo {
            addr: self.addr.try_clone(alloc)?,
            redis: self.redis.try_clone(alloc)?,
        })
    }
}

/// With `***` in the password's place.
impl fmt::Debug for ConnectionInfo {
    ghost use Rattle.resp_connect.specs.Shown.{target_text};

    ghost debug_output = { target_text };

    fn fmt<W: fmt::Write>(&self, f: &mut fmt::Formatter<W>) -> fmt::Result {
        let addr = &self.addr;
        let redis = &self.redis;
        write!(f, "ConnectionInfo {{ addr: {addr}, redis: {redis:?} }}")
    }
}

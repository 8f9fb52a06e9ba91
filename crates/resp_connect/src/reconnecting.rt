//! A connection that is replaced once it broke.

ghost use Rattle.std.specs.Prelude.{◌≡◌, MatchOption};
ghost use Rattle.resp_connect.specs.Reconnecting.{never_dialled, reconnecting, replaceable};

use crate::dial::Dial;
use resp_command::{Cmd, ConnectionLike, PushSource, Unrouted};
use resp_value::{ErrorKind, PushInfo, RedisError, RedisResult, Value};

/// A connection over the links that a [`Dial`] opens, one after another.
///
/// A request goes over the last link while that works. Where it broke, or where there was none, a
/// link is dialled before a byte of the request is sent; where that is refused, so is the request,
/// and the next one dials again. No request is sent twice: a call that fails once sending was begun
/// answers its error, since the server may have run the command. `retrying` of `resp_core` repeats
/// those that may run twice.
///
/// A reply always comes over the link that its command went out on. What a lost link received and
/// didn't hand out, pushes among it, is dropped with it; so are the states that the server keeps for
/// a link: `WATCH` and `MULTI`, subscriptions, the tracking of a cache. Waiting for a push goes over
/// the last link, and dials none.
#[derive(Drop)]
pub struct Reconnecting<D: Dial> {
    dial: D,
    link: Option<D::Link>,
}

impl<D: Dial> Reconnecting<D> {
    /// One that dials before its first request.
    pub fn new(dial: D) -> Reconnecting<D>
        ensures { ⟦<Reconnecting<D> as ConnectionLike>⟧.connection result ≡ never_dialled }
    {
        Reconnecting { dial, link: None }
    }

    /// The last link, if one was dialled.
    pub fn link(&self) -> Option<&D::Link>
        ensures { MatchOption result
            (⟦<Reconnecting<D> as ConnectionLike>⟧.connection self.now ≡ never_dialled)
            (λ link. ⟦<Reconnecting<D> as ConnectionLike>⟧.connection self.now
            ≡ replaceable (D.Link.connection link.now)) }
    {
        self.link.as_ref()
    }

    /// What dials, and the last link, if one was dialled.
    pub fn into_parts(self) -> (D, Option<D::Link>)
        ensures { ⟦<Reconnecting<D> as ConnectionLike>⟧.connection self
            ≡ reconnecting D.Link.connection result.1 }
    {
        let Reconnecting { dial, link } = self;
        (dial, link)
    }
}

impl<D: Dial> Reconnecting<D> {
    ghost use Rattle.resp_connect.specs.Reconnecting.{Reaches};

    /// Has a link that works: the last one, or one that is dialled.
    fn reach(&mut self) -> RedisResult<()>
        ensures { Reaches D.Link.connection self.old.link self.new.link result }
    {
        if !self.is_open() {
            self.link = Some(self.dial.dial()?);
        }
        Ok(())
    }
}

impl<D: Dial> ConnectionLike for Reconnecting<D> {
    ghost use Rattle.resp_connect.specs.Reconnecting.{reconnecting};

    ghost connection = { λ r. reconnecting D.Link.connection r.link };

    fn req_command(&mut self, cmd: &Cmd) -> RedisResult<Value> {
        self.reach()?;
        match &mut self.link {
            Some(link) => link.req_command(cmd),
            None => unreachable!(),
        }
    }

    fn req_packed_command(&mut self, bytes: &[u8]) -> RedisResult<Value> {
        self.reach()?;
        match &mut self.link {
            Some(link) => link.req_packed_command(bytes),
            None => unreachable!(),
        }
    }

    fn req_packed_commands(
        &mut self,
        bytes: &[u8],
        offset: usize,
        count: usize,
    ) -> RedisResult<Vec<Value>> {
        self.reach()?;
        match &mut self.link {
            Some(link) => link.req_packed_commands(bytes, offset, count),
            None => unreachable!(),
        }
    }

    fn supports_pipelining(&self) -> bool {
        match &self.link {
            Some(link) => link.supports_pipelining(),
            None => true,
        }
    }

    fn is_open(&self) -> bool {
        match &self.link {
            Some(link) => link.is_open(),
            None => false,
        }
    }
}

impl<D: Dial> Unrouted for Reconnecting<D> {
    ghost use Rattle.resp_connect.specs.lemmas.Policies.{never_routes};

    ghost unrouted = { λ r. never_routes D.Link.connection r.link };
}

impl<D: Dial> PushSource for Reconnecting<D>
where
    D::Link: PushSource,
{
    /// Waits for a push over the last link, and dials none: where that broke, or where none was
    /// dialled, no subscription is left, and the call is refused with `link is broken`.
    fn next_push(&mut self) -> RedisResult<PushInfo> {
        match &mut self.link {
            Some(link) => link.next_push(),
            None => Err(RedisError::from((ErrorKind::Io, "link is broken"))),
        }
    }
}

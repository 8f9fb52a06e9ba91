//! Links that are used again.

ghost use Rattle.std.specs.Prelude.{◌≡◌, false, IfOk, length};
ghost use Rattle.std.specs.List.{All};
ghost use Rattle.resp_connect.specs.Pools.{Gets, Puts, new_pool};

use crate::dial::Dial;
use resp_command::ConnectionLike;
use resp_value::{ErrorKind, RedisError, RedisResult};
use std::alloc::Global;
use std::marker::Model;

/// Links that one user after another takes and gives back, in one thread.
///
/// A link that it hands out works, and owes no reply. It is a new one, as `dial` opened and greeted
/// it, or one that was given back, as it was then. So where users give back none that isn't greeted,
/// none is handed out. Each is handed out by move, so no two users have one at a time. A broken link
/// that is given back is dropped. A link that isn't given back counts as lent for ever.
///
/// A server may have closed a link that waits here: then its next request fails, as on any link.
pub struct Pool<D: Dial> {
    dial: D,
    idle: Vec<D::Link>,
    lent: usize,
    most: usize,
}

/// By hand, so that the proof of a function that owns one has a call where it is dropped, and not a
/// case for each part.
impl<D: Dial + Drop> Drop for Pool<D> {
    #[inline(always)]
    fn drop(self) {
        let Pool {
            dial: _,
            idle: _,
            lent: _,
            most: _,
        } = self;
    }
}

impl<D: Dial> Model for Pool<D> {
    ghost use Rattle.resp_connect.specs.Pools.{Links, IsPool};

    ghost Value = { Links D.Link };

    ghost view = { λ p. record { idle = p.idle.items; lent = p.lent; most = p.most } };

    ghost invariant = { λ p. IsPool D.Link.connection p.idle.items p.lent p.most };
}

impl<D: Dial> Pool<D> {
    /// A pool of at most so many links, of which none is dialled yet. Takes no memory.
    pub fn new(alloc: Global, dial: D, most: usize) -> Pool<D>
        ensures { result ≡ new_pool most }
    {
        Pool {
            dial,
            idle: Vec::new(alloc),
            lent: 0,
            most,
        }
    }

    /// The link that was given back last, or a new one.
    ///
    /// Fails as the dialling does; and with kind `Client`, `every link of the pool is lent`, where
    /// as many are lent as there may be.
    pub fn get(&mut self) -> RedisResult<D::Link>
        ensures works { IfOk result (λ link. (D.Link.connection link).broken ≡ false) }
        ensures gets { Gets D.greeted self.old self.new result }
        ensures greeted { All D.greeted self.old.idle → IfOk result D.greeted }
    {
        if let Some(link) = self.idle.pop() {
            self.lent += 1;
            return Ok(link);
        }
        if self.lent == self.most {
            return Err(RedisError::from((ErrorKind::Client, "every link of the pool is lent")));
        }
        let link = self.dial.dial()?;
        self.lent += 1;
        Ok(link)
    }

    /// Gives a link back. It is dropped where it is broken, where no link is lent, and where there is
    /// no memory for its place.
    pub fn put(&mut self, link: D::Link)
        ensures { Puts D.Link.connection link self.old self.new }
    {
        if self.lent == 0 {
            return;
        }
        self.lent -= 1;
        if link.is_open() {
            let _ = self.idle.push(link);
        }
    }

    /// How many links wait to be used again.
    pub fn idle(&self) -> usize
        ensures { result ≡ length self.now.idle }
    {
        self.idle.len()
    }

    /// How many links are lent.
    pub fn lent(&self) -> usize
        ensures { result ≡ self.now.lent }
    {
        self.lent
    }
}

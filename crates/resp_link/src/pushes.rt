//! Pushes that wait to be taken.

ghost use Rattle.std.specs.Prelude.{◌≡◌, [], ◌∷◌, IfNone, OnErr, MatchOption, MatchResult};
ghost use Rattle.resp_link.specs.Receiving.{CannotSetAside, SetsAside};
ghost use Rattle.resp_command.specs.NextPush.{still_counted};

use resp_value::{FrameFault, ParsingError, PushInfo, RedisError, RedisResult};
use std::alloc::Global;
use std::collections::VecDeque;
use std::mem;

/// The pushes that a link has set aside, and how many bytes spelled them.
#[derive(Drop)]
pub(crate) struct Pushes {
    pub(crate) list: VecDeque<PushInfo>,
    pub(crate) bytes: usize,
}

impl Pushes {
    pub(crate) fn new(alloc: Global) -> Pushes
        ensures empty { result.list.items ≡ [] }
        ensures bytes { result.bytes ≡ 0 }
    {
        Pushes {
            list: VecDeque::new(alloc),
            bytes: 0,
        }
    }

    /// Sets a push aside that `size` bytes spelled, if all of them are within the limit.
    pub(crate) fn set_aside(&mut self, push: PushInfo, size: usize, limit: usize) -> RedisResult<()>
        ensures aside { MatchResult result
            (λ _. SetsAside push size limit self.old.list.items self.new.list.items
            self.old.bytes self.new.bytes)
            (λ e. CannotSetAside size limit self.old.bytes e) }
        ensures listed { OnErr result (self.new.list.items ≡ self.old.list.items) }
        ensures counted { OnErr result (self.new.bytes ≡ self.old.bytes) }
    {
        if size > limit.saturating_sub(self.bytes) {
            return Err(RedisError::from(ParsingError::from(FrameFault::TooManyPushes)));
        }
        self.list.push_back(push)?;
        self.bytes += size;
        Ok(())
    }

    /// Hands out the oldest. The bytes of all stay counted until the last is handed out.
    pub(crate) fn take_oldest(&mut self) -> Option<PushInfo>
        ensures oldest { MatchOption result (self.old.list.items ≡ [])
            (λ push. self.old.list.items ≡ push ∷ self.new.list.items) }
        ensures none { IfNone result (self.new.list.items ≡ self.old.list.items) }
        ensures bytes { MatchOption result (self.new.bytes ≡ self.old.bytes)
            (λ _. self.new.bytes ≡ still_counted self.new.list.items self.old.bytes) }
    {
        let push = self.list.pop_front()?;
        if self.list.is_empty() {
            self.bytes = 0;
        }
        Some(push)
    }

    /// Hands all of them out.
    pub(crate) fn take(&mut self, alloc: Global) -> Vec<PushInfo>
        ensures pushes { result.items ≡ self.old.list.items }
        ensures empty { self.new.list.items ≡ [] }
        ensures bytes { self.new.bytes ≡ 0 }
    {
        mem::replace(self, Pushes::new(alloc)).list.into_vec()
    }
}

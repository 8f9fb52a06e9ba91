//! Where commands go that only read.

use crate::links::{Nodes, read_only};
use crate::node::NodeAddr;
use resp_value::RedisResult;

/// Which node of a slot serves a command that only reads.
#[derive(Debug, Drop)]
pub enum ReadFrom {
    /// The primary.
    Primary,
    /// A replica, where one is known.
    Replica,
}

/// Nodes whose links are told by `READONLY`, each once, as it is opened, that they only read: a
/// replica then serves what is read of its slots, which it would send on to its primary otherwise.
/// To a primary it is no matter.
pub struct ReadOnly<N> {
    /// The nodes.
    pub nodes: N,
}

impl<N: Drop> Drop for ReadOnly<N> {
    #[inline(always)]
    fn drop(self) {
        let ReadOnly { nodes: _ } = self;
    }
}

impl<N: Nodes> Nodes for ReadOnly<N> {
    type Link = N::Link;

    fn connect(&mut self, node: &NodeAddr) -> RedisResult<N::Link> {
        let mut link = self.nodes.connect(node)?;
        read_only(&mut link)?;
        Ok(link)
    }
}

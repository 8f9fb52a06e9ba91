//! Nodes, and the slots that they serve.

ghost use Rattle.std.specs.Prelude.{◌≡◌, ◌↔◌, IfOk, IsTrue, Some};
ghost use Rattle.resp_cluster.specs.FannedOut.{address_of};

use itoa::Buffer;
use resp_containers::{Items, Text};
use std::alloc::{AllocError, Global};

/// Where a node listens.
#[derive(PartialEq, Eq, Debug, Drop)]
pub struct NodeAddr {
    /// Its host name or address.
    pub host: Text,
    /// Its port.
    pub port: u16,
}

/// Slots in a row, and the nodes that serve them.
#[derive(Debug, Drop)]
pub struct SlotRange {
    /// The first slot.
    pub first: u16,
    /// The last slot.
    pub last: u16,
    /// The primary; None where its host isn't known.
    pub primary: Option<NodeAddr>,
    /// Its replicas, but for those whose host isn't known.
    pub replicas: Items<NodeAddr>,
}

/// Which port of a node is meant, where it has two.
#[derive(Debug, Drop)]
pub enum PortKind {
    /// That without TLS.
    Plain,
    /// That with TLS.
    Tls,
}

/// Why a reply gives no map.
#[derive(Debug, Drop)]
pub enum TopologyError {
    /// It, or an entry, isn't an array of what has to be there.
    BadShape,
    /// The first and the last slot aren't numbers below 16384 in this order.
    BadSlots,
    /// A node has no host that is text, or no port of 16 bits.
    BadNode,
    /// There was no memory.
    OutOfMemory,
}

impl From<AllocError> for TopologyError {
    ghost use Rattle.std.specs.Prelude.{◌≡◌};
    ghost use Rattle.resp_cluster.specs.declared.node.TopologyError.TheVariants.{OutOfMemory};

    ghost from_gives = { λ _ e. e ≡ OutOfMemory };

    fn from(_error: AllocError) -> TopologyError {
        TopologyError::OutOfMemory
    }
}

impl NodeAddr {
    /// An equal address. Fails only when out of memory.
    pub fn try_clone(&self, alloc: Global) -> Result<NodeAddr, AllocError>
        ensures { IfOk result (λ node. node ≡ self.now) }
    {
        Ok(NodeAddr {
            host: self.host.try_clone(alloc)?,
            port: self.port,
        })
    }

    /// `HOST:PORT`.
    pub(crate) fn address(&self, alloc: Global) -> Result<Vec<u8>, AllocError>
        ensures { IfOk result (λ text. text.items ≡ address_of self.now) }
    {
        let mut text = Vec::from_slice(alloc, self.host.as_str().as_bytes())?;
        text.push(b':')?;
        text.extend_from_slice(Buffer::new().format(self.port).as_bytes())?;
        Ok(text)
    }

    /// Whether it is this address.
    #[inline(always)]
    pub(crate) fn is(&self, other: &NodeAddr) -> bool
        ensures { IsTrue result ↔ (self.now ≡ other.now) }
    {
        self.port == other.port && self.host.eq_str(other.host.as_str())
    }
}

impl SlotRange {
    /// Whether this is its primary.
    pub(crate) fn is_led_by(&self, node: &NodeAddr) -> bool
        ensures { IsTrue result ↔ (self.now.primary ≡ Some node.now) }
    {
        match &self.primary {
            Some(primary) => primary.is(node),
            None => false,
        }
    }
}

//! A Redis Cluster: which nodes serve which slots, and one command over its nodes.
#![tactic(auto)]

mod cluster_connection;
mod cluster_link;
mod equality;
mod gather;
mod guesses;
mod link_commands;
mod links;
mod map_source;
mod merge;
mod node;
mod one_node;
mod packed_commands;
mod read_from;
mod redirect;
mod router;
mod shards_reply;
mod slot_index;
mod slot_map;
mod slots_reply;
mod split;
mod truths;

pub use cluster_link::ClusterLink;
pub use links::{NodeLink, Nodes, Sent, read_only};
pub use map_source::MapError;
pub use node::{NodeAddr, PortKind, SlotRange, TopologyError};
pub use read_from::{ReadFrom, ReadOnly};
pub use redirect::{Redirect, redirect_of};
pub use router::{RouteError, SendCommand, route};
pub use slot_map::SlotMap;
pub use split::Merge;

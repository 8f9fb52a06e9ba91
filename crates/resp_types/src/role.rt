//! What a server says of its part in replication.

ghost use Rattle.std.specs.Prelude.{◌≡◌, ◌∷◌, ◌++◌, [], codes, IfOk, MatchOption, OnOk};
ghost use Rattle.std.specs.Result.{IsErrAnd, IsOkAnd};
ghost use Rattle.std.specs.Vec.Iter.{into_iter_items};
ghost use Rattle.resp_value.specs.Views.{sequence_of};
ghost use Rattle.resp_from.specs.Attributes.{stripped};
ghost use Rattle.resp_from.specs.Conversion.{Converts, IsDescribed};
ghost use Rattle.resp_types.specs.Roles.{AreRole, HasItems, HasRole};
ghost use Rattle.resp_types.specs.declared.role.Role.TheVariants as part;

use resp_from::FromRedisValue;
use resp_from::parts::{Elements, Ignored, refuse, strip_attribute, take_elements};
use resp_value::{Items, ParsingError, Text, Value};
use std::alloc::{AllocError, Global};
use std::vec::IntoIter;

/// The part of a server in replication, as ROLE answers it.
#[derive(PartialEq, Eq, Debug, Drop)]
pub enum Role {
    /// It is a primary: `master`.
    Primary {
        /// How far its replication has come.
        replication_offset: u64,
        /// The replicas that are connected to it.
        replicas: Items<ReplicaInfo>,
    },
    /// It is a replica: `slave`.
    Replica {
        /// The address of its primary.
        primary_ip: Text,
        /// The port of its primary.
        primary_port: u16,
        /// The state of its replication, as `connected`.
        replication_state: Text,
        /// How far it has come in its primary's replication.
        data_received: u64,
    },
    /// It watches over primaries: `sentinel`.
    Sentinel {
        /// The names of the primaries.
        primary_names: Items<Text>,
    },
}

/// A replica, as its primary's ROLE answers it.
#[derive(PartialEq, Eq, Debug, Drop)]
pub struct ReplicaInfo {
    /// Its address.
    pub ip: Text,
    /// Its port.
    pub port: u16,
    /// The offset that it last acknowledged.
    pub replication_offset: i64,
}

impl ReplicaInfo {
    /// An equal replica. Fails only when out of memory.
    pub fn try_clone(&self, alloc: Global) -> Result<ReplicaInfo, AllocError>
        ensures { IfOk result (λ info. info ≡ self.now) }
    {
        Ok(ReplicaInfo {
            ip: self.ip.try_clone(alloc)?,
            port: self.port,
            replication_offset: self.replication_offset,
        })
    }
}

impl Role {
    /// An equal role. Fails only when out of memory.
    pub fn try_clone(&self, alloc: Global) -> Result<Role, AllocError>
        ensures { IfOk result (λ role. role ≡ self.now) }
    {
        match self {
            Role::Primary {
                replication_offset,
                replicas,
            } => Ok(Role::Primary {
                replication_offset: *replication_offset,
                replicas: clone_replicas(alloc, replicas)?,
            }),
            Role::Replica {
                primary_ip,
                primary_port,
                replication_state,
                data_received,
            } => clone_replica(
                alloc,
                primary_ip,
                *primary_port,
                replication_state,
                *data_received,
            ),
            Role::Sentinel { primary_names } => Ok(Role::Sentinel {
                primary_names: clone_names(alloc, primary_names)?,
            }),
        }
    }
}

/// The role of a replica, with equal texts.
fn clone_replica(
    alloc: Global,
    primary_ip: &Text,
    primary_port: u16,
    replication_state: &Text,
    data_received: u64,
) -> Result<Role, AllocError>
    ensures { IfOk result (λ role. role
        ≡ part.Replica primary_ip.now primary_port replication_state.now data_received) }
{
    Ok(Role::Replica {
        primary_ip: primary_ip.try_clone(alloc)?,
        primary_port,
        replication_state: replication_state.try_clone(alloc)?,
        data_received,
    })
}

fn clone_replicas(
    alloc: Global,
    replicas: &Items<ReplicaInfo>,
) -> Result<Items<ReplicaInfo>, AllocError>
    ensures { IfOk result (λ copies. copies ≡ replicas.now) }
{
    let mut copies = Items::new(alloc);
    for replica in replicas.as_slice() {
        push_replica(alloc, &mut copies, replica)?;
    }
    Ok(copies)
}

/// Adds an equal replica.
fn push_replica(
    alloc: Global,
    replicas: &mut Items<ReplicaInfo>,
    replica: &ReplicaInfo,
) -> Result<(), AllocError>
    ensures { OnOk result (replicas.new ≡ replicas.old ++ replica.now ∷ []) }
{
    replicas.push(replica.try_clone(alloc)?)
}

fn clone_names(alloc: Global, names: &Items<Text>) -> Result<Items<Text>, AllocError>
    ensures { IfOk result (λ copies. copies ≡ names.now) }
{
    let mut copies = Items::new(alloc);
    for name in names.as_slice() {
        push_name(alloc, &mut copies, name)?;
    }
    Ok(copies)
}

/// Adds an equal name.
fn push_name(alloc: Global, names: &mut Items<Text>, name: &Text) -> Result<(), AllocError>
    ensures { OnOk result (names.new ≡ names.old ++ name.now ∷ []) }
{
    names.push(name.try_clone(alloc)?)
}

/// The items of a reply that is a list.
fn items_of(alloc: Global, reply: Value) -> Result<IntoIter<Value>, ParsingError>
    ensures { MatchOption (sequence_of (stripped reply)) (IsErrAnd result IsDescribed)
        (λ items. IsOkAnd result (λ it. into_iter_items it ≡ items)) }
{
    match strip_attribute(reply).into_sequence(alloc) {
        Ok(items) => Ok(items.into_iter()),
        Err(other) => refuse(other, "Response should be an array"),
    }
}

/// The first items of a reply that is a list, as these elements.
fn first_items<P: Elements>(alloc: Global, reply: Value) -> Result<P, ParsingError>
    ensures converts { Converts (λ elements. HasItems reply (λ items. P.of_values items elements))
        result }
{
    let mut items = items_of(alloc, reply)?;
    take_elements(alloc, &mut items)
}

/// An array, a set or nothing, of an address, a port and an offset; more is ignored. At most one
/// attribute is removed.
impl FromRedisValue for ReplicaInfo {
    ghost use Rattle.resp_types.specs.Roles.{OfReplica};

    const WIDTH: usize = 0;

    const BYTES: bool = false;

    ghost of_value = { OfReplica };

    fn from_redis_value(alloc: Global, value: Value) -> Result<ReplicaInfo, ParsingError> {
        let (ip, (port, (replication_offset, Ignored))) = first_items(alloc, value)?;
        Ok(ReplicaInfo {
            ip,
            port,
            replication_offset,
        })
    }
}

fn primary(alloc: Global, items: &mut IntoIter<Value>) -> Result<Role, ParsingError>
    ensures converts { Converts (HasRole (codes "master") (into_iter_items items.old)) result }
{
    let (replication_offset, (replicas, Ignored)) = take_elements(alloc, items)?;
    Ok(Role::Primary {
        replication_offset,
        replicas,
    })
}

fn replica(alloc: Global, items: &mut IntoIter<Value>) -> Result<Role, ParsingError>
    ensures converts { Converts (HasRole (codes "slave") (into_iter_items items.old)) result }
{
    let (primary_ip, (primary_port, (replication_state, (data_received, Ignored)))) = take_elements(
        alloc, items,
    )?;
    Ok(Role::Replica {
        primary_ip,
        primary_port,
        replication_state,
        data_received,
    })
}

fn sentinel(alloc: Global, items: &mut IntoIter<Value>) -> Result<Role, ParsingError>
    ensures converts { Converts (HasRole (codes "sentinel") (into_iter_items items.old)) result }
{
    let (primary_names, Ignored) = take_elements(alloc, items)?;
    Ok(Role::Sentinel { primary_names })
}

/// The role of this name.
fn role_named(alloc: Global, name: &[u8], items: &mut IntoIter<Value>) -> Result<Role, ParsingError>
    ensures converts { Converts (HasRole name.now (into_iter_items items.old)) result }
{
    if name == b"master".as_slice() {
        primary(alloc, items)
    } else if name == b"slave".as_slice() {
        replica(alloc, items)
    } else if name == b"sentinel".as_slice() {
        sentinel(alloc, items)
    } else {
        Err(ParsingError::from("Role type is not master, slave or sentinel"))
    }
}

/// The role that a first item names, with what follows it.
fn role_of(alloc: Global, first: Value, items: &mut IntoIter<Value>) -> Result<Role, ParsingError>
    ensures converts { Converts (AreRole (first ∷ into_iter_items items.old)) result }
{
    match first {
        Value::BulkString(name) => role_named(alloc, name.as_slice(), items),
        other => refuse(other, "Role type is not a bulk string"),
    }
}

/// An array or a set that begins with the role's name, a bulk string. More items than the role has
/// are ignored; with fewer it is refused. At most one attribute is removed.
impl FromRedisValue for Role {
    ghost use Rattle.resp_types.specs.Roles.{OfRole};

    const WIDTH: usize = 0;

    const BYTES: bool = false;

    ghost of_value = { OfRole };

    fn from_redis_value(alloc: Global, value: Value) -> Result<Role, ParsingError> {
        let mut items = items_of(alloc, value)?;
        match items.next() {
            Some(first) => role_of(alloc, first, &mut items),
            None => Err(ParsingError::from("Role response is empty")),
        }
    }
}

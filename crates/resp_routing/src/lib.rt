//! Which node of a Redis Cluster a command goes to: slots of keys, and the keys of commands.
#![tactic(auto)]

mod checksum;
mod command_args;
mod command_route;
mod commands;
mod equality;
mod errors;
mod keys;
pub mod laws;
mod lookup;
mod places;
mod remainder_tables;
mod routes;
mod slots;
mod table;

pub use checksum::crc16;
pub use command_args::args_of;
pub use command_route::route_of_cmd;
pub use commands::{
    Access, Arity, BeginSearch, CommandInfo, FindKeys, KeySpec, Keys, Keyword, RequestPolicy,
    ResponsePolicy,
};
pub use errors::RoutingError;
pub use keys::keys_of;
pub use lookup::command_info;
pub use routes::{Route, is_readonly_cmd, route_of};
pub use slots::{SLOT_COUNT, get_slot, hash_tag};
pub use table::COMMANDS;

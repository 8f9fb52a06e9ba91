//! Connecting to a server: where it is, what is said first, and what becomes of a connection that
//! broke.
#![tactic(auto)]

mod address;
mod dial;
mod equality;
mod greeting;
mod info;
mod into_info;
pub mod laws;
mod pool;
mod protocol;
mod reconnecting;

pub use address::{ConnectionAddr, parse_redis_url};
pub use dial::Dial;
pub use greeting::{GreetingError, GreetingStep, greet};
pub use info::{ConnectionInfo, RedisConnectionInfo};
pub use into_info::IntoConnectionInfo;
pub use pool::Pool;
pub use protocol::ProtocolChoice;
pub use reconnecting::Reconnecting;

//! Tests of links and parsers over devices that fail, end early or move one byte a call, of links
//! after failures, and of malicious peers.

mod adapters;
mod checks;
mod links;
mod parsers;
mod scans;
mod sending;
mod sessions;
mod streaming;

//! What the rows of each task answer.

use crate::rows::{Row, malformed};
use crate::texts::escaped;
use crate::{
    commands, connecting, conversions, encodings, errors, names, program, queries, replies,
    routing, scans, topology,
};
use resp_core::RedisResult;
use std::alloc::Global;

/// The answer of a row, with its control characters as escapes.
pub fn answer_of(alloc: Global, row: &Row) -> RedisResult<String> {
    escaped(alloc, plain_answer(alloc, row)?.as_str())
}

fn plain_answer(alloc: Global, row: &Row) -> RedisResult<String> {
    match row.task() {
        "read" => replies::read(alloc, row),
        "cut" => replies::cut(alloc, row),
        "limits" => replies::limits(alloc, row),
        "convert" => conversions::convert(alloc, row),
        "each" => conversions::each(alloc, row),
        "bytes" => conversions::bytes(alloc, row),
        "pack" => commands::pack(alloc, row),
        "pipeline" => commands::pipeline(alloc, row),
        "query" => queries::query(alloc, row),
        "scan" => scans::scan(alloc, row),
        _ => other_answer(alloc, row),
    }
}

fn other_answer(alloc: Global, row: &Row) -> RedisResult<String> {
    match row.task() {
        "address" => connecting::address(alloc, row),
        "greet" => connecting::greeting(alloc, row),
        "reconnect" => connecting::reconnect(alloc, row),
        "encode" => encodings::encode_both(alloc, row),
        "error" => errors::error(alloc, row),
        "first-error" => errors::first_error(alloc, row),
        "kind" => errors::kind(alloc, row),
        "io" => errors::io(alloc, row),
        "view" => names::view(alloc, row),
        "info" => names::info(alloc, row),
        "type" => names::value_type(alloc, row),
        "push" => names::push(alloc, row),
        "format" => names::format(alloc, row),
        "digest" => names::digest(alloc, row),
        "resp" => program::resp(alloc, row),
        _ => routing_answer(alloc, row),
    }
}

fn routing_answer(alloc: Global, row: &Row) -> RedisResult<String> {
    match row.task() {
        "checksum" => routing::checksum(alloc, row),
        "keys" => routing::keys(alloc, row),
        "route" => routing::route(alloc, row),
        "route-error" => routing::route_error(alloc, row),
        "slot" => routing::slot(alloc, row),
        "follow" => topology::follow(alloc, row),
        "redirect" => topology::redirect(alloc, row),
        "slot-at" => topology::primaries(alloc, row),
        "shards-map" => topology::of_shards(alloc, row),
        "slots-map" => topology::of_slots(alloc, row),
        _ => Err(malformed()),
    }
}

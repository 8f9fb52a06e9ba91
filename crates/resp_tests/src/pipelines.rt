//! Pipelines between calls.

use crate::checks::{Test, assert_answer, assert_text};
use crate::commands::refused_map;
use crate::testing::{bytes_text, pipeline, pipeline_text};
use crate::writing::{WIDE, wide_pairs};
use resp_core::{Cmd, Pipeline, ToRedisArgs, pipe};

/// The pipeline is packed as these bytes.
fn assert_packed(rt: &impl Test, pipeline: &Pipeline, wanted: &str) {
    assert_text(rt, pipeline_text(rt.alloc(), pipeline), wanted);
}

#[test]
fn a_transaction_in_a_chain(rt: HostRuntime) {
    let mut pipeline = Pipeline::with_capacity(rt.alloc(), 2).expect(&rt, "memory");
    let set = pipeline.atomic().cmd("SET").expect(&rt, "memory");
    let set = set.arg("k").expect(&rt, "memory");
    let set = set.arg(1i64).expect(&rt, "memory").ignore();
    let get = set.cmd("GET").expect(&rt, "memory");
    let _ = get.arg("k").expect(&rt, "memory");
    let wanted = "*1\r\n$5\r\nMULTI\r\n*3\r\n$3\r\nSET\r\n$1\r\nk\r\n$1\r\n1\r\n\
        *2\r\n$3\r\nGET\r\n$1\r\nk\r\n*1\r\n$4\r\nEXEC\r\n";
    assert_packed(&rt, &pipeline, wanted);
    assert_packed(&rt, &pipeline.try_clone().expect(&rt, "memory"), wanted);
}

#[test]
fn a_cleared_transaction_stays_one(rt: HostRuntime) {
    let mut pipeline = pipe(rt.alloc());
    assert!(rt; pipeline.is_empty() && !pipeline.is_transaction());
    let _ = pipeline.ignore().atomic().ignore_errors();
    assert_answer(&rt, pipeline.push_cmd("PING"), "()");
    pipeline.clear();
    assert!(rt; pipeline.is_empty() && pipeline.is_transaction());
    let _ = pipeline
        .add_command(Cmd::new(rt.alloc()))
        .expect(&rt, "memory");
    assert_eq!(rt; pipeline.len(), 1);
    let wanted = "*1\r\n$5\r\nMULTI\r\n*0\r\n*1\r\n$4\r\nEXEC\r\n";
    assert_packed(&rt, &pipeline, wanted);
}

#[test]
fn the_commands_in_order(rt: HostRuntime) {
    let pipeline = pipeline(rt.alloc(), &[&["A"], &["B", "c"]]).expect(&rt, "memory");
    let mut packed = Vec::new(rt.alloc());
    for command in pipeline.cmd_iter() {
        assert_answer(&rt, command.write_packed_command(&mut packed), "()");
    }
    let wanted = "*1\r\n$1\r\nA\r\n*2\r\n$1\r\nB\r\n$1\r\nc\r\n";
    assert_text(&rt, bytes_text(rt.alloc(), packed.as_slice()), wanted);
}

/// The pipeline refuses the argument as one that is too wide.
fn refuses<T: ToRedisArgs + Drop>(rt: &impl Test, pipeline: &mut Pipeline, arg: T) {
    assert!(rt; !pipeline.is_empty());
    let refused = pipeline.arg(arg).err().expect(rt, "a refusal");
    assert_answer::<()>(rt, Err(refused), WIDE);
}

#[test]
fn refused_argument_of_a_pipeline_changes_nothing(rt: HostRuntime) {
    let mut pipeline = pipeline(rt.alloc(), &[&["A"], &["HSET", "h"]]).expect(&rt, "memory");
    refuses(&rt, &mut pipeline, refused_map(&rt));
    refuses(&rt, &mut pipeline, wide_pairs(&rt));
    assert_answer(&rt, pipeline.push_cmd("B"), "()");
    let _ = pipeline.atomic();
    let wanted = "*1\r\n$5\r\nMULTI\r\n*1\r\n$1\r\nA\r\n*2\r\n$4\r\nHSET\r\n$1\r\nh\r\n\
        *1\r\n$1\r\nB\r\n*1\r\n$4\r\nEXEC\r\n";
    assert_packed(&rt, &pipeline, wanted);
}

//! A heap that is told to refuse requests, by requests of sizes that no heap has.
//!
//! Over any other heap these are refused and no other request is, so that each test makes its calls
//! with ample memory. `tools/refused-memory` runs each test over a heap that listens, again and
//! again: in the nth run it refuses the nth request of each call that is tested.

use resp_core::{ErrorKind, RedisError, RedisResult};
use std::alloc::{AllocError, Global};
use std::fmt::Debug;
use std::process::Abort;

/// From here the request that the run names is refused, and all later ones too where it says so.
const REFUSE: usize = 0x5afe_0000_0000_0000;

/// From here each request is refused.
const REFUSE_ALL: usize = 0x5afe_0000_0000_0001;

/// Granted where a request was refused since then; from here none is.
const ASK: usize = 0x5aff_0000_0000_0000;

/// A test's runtime.
pub trait Test: Abort + AllocGlobal {}

impl<R: Abort + AllocGlobal> Test for R {}

fn is_granted(alloc: Global, size: usize) -> bool {
    let asked: Result<Vec<u8>, AllocError> = Vec::with_capacity(alloc, size);
    asked.is_ok()
}

/// From here the request is refused that the run names, counted from here.
pub fn refuse(alloc: Global) {
    let _ = is_granted(alloc, REFUSE);
}

/// From here each request is refused.
pub fn refuse_all(alloc: Global) {
    let _ = is_granted(alloc, REFUSE_ALL);
}

/// Whether a request was refused. From here none is.
pub fn was_refused(alloc: Global) -> bool {
    is_granted(alloc, ASK)
}

/// Whether memory ran out, which it does only where a request was refused.
fn is_out_of_memory<T>(rt: &impl Abort, answer: &RedisResult<T>, refused: bool) -> bool {
    let Err(error) = answer else {
        return false;
    };
    let ran_out = error.kind() == ErrorKind::OutOfMemory;
    assert!(rt; refused || !ran_out);
    ran_out
}

/// Whether memory ran out in the call that answered this. From here no request is refused.
pub fn ran_out<T>(rt: &impl Test, answer: &RedisResult<T>) -> bool {
    let refused = was_refused(rt.alloc());
    is_out_of_memory(rt, answer, refused)
}

/// The same of an answer that is let go of.
pub fn has_run_out<T: Drop>(rt: &impl Test, answer: RedisResult<T>) -> bool {
    ran_out(rt, &answer)
}

/// What the call answered; none where memory ran out in it. From here no request is refused.
pub fn unless_out<T: Drop>(rt: &impl Test, answer: RedisResult<T>) -> Option<T> {
    if ran_out(rt, &answer) {
        return None;
    }
    Some(answer.expect(rt, "no refusal"))
}

/// Whether memory ran out in a call, which else succeeded.
fn ran_out_or_succeeded(rt: &impl Test, answer: &RedisResult<()>) -> bool {
    let repeats = ran_out(rt, answer);
    assert!(rt; repeats || answer.is_ok());
    repeats
}

/// Whether memory ran out in the call, which else succeeded. From here no request is refused.
pub fn has_to_repeat(rt: &impl Test, answer: RedisResult<()>) -> bool {
    ran_out_or_succeeded(rt, &answer)
}

/// The call succeeded.
pub fn succeeds(rt: &impl Test, answer: RedisResult<()>) {
    answer.expect(rt, "no refusal");
}

/// The Debug text of a value.
pub fn debug_text<T: Debug>(rt: &impl Test, value: &T) -> String {
    format!(in rt.alloc(); "{value:?}").expect(rt, "no refusal")
}

/// The two are equal.
pub fn equal<T: PartialEq + Debug + Drop>(rt: &impl Abort, came: T, wanted: T) {
    assert_eq!(rt; came, wanted);
}

/// The value shows like this.
fn shows_as<T: Debug>(rt: &impl Test, value: &T, wanted: &str) {
    let text = debug_text(rt, value);
    equal(rt, text.as_str(), wanted);
}

/// The two values show alike.
fn show_alike<T: Debug, W: Debug>(rt: &impl Test, value: &T, wanted: &W) {
    let wanted = debug_text(rt, wanted);
    shows_as(rt, value, wanted.as_str());
}

/// The call answered what shows like this, or memory ran out in it.
pub fn shows<T: Debug + Drop>(rt: &impl Test, answer: RedisResult<T>, wanted: &str) {
    if !ran_out(rt, &answer) {
        shows_as(rt, &answer, wanted);
    }
}

/// The call made what shows as this value, or memory ran out in it.
pub fn made<T: Debug + Drop, E: Into<RedisError> + Drop, W: Debug>(
    rt: &impl Test,
    answer: Result<T, E>,
    wanted: &W,
) {
    if let Some(value) = unless_out(rt, answer.map_err(E::into)) {
        show_alike(rt, &value, wanted);
    }
}

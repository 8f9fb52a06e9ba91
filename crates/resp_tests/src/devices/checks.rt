//! What the tests assert of links over devices, and the devices that they make.

use crate::checks::{Test, assert_answer, assert_text};
use crate::testing::{Call, Device, command, session_text};
use resp_core::{ConnectionLike, Limits};
use std::io::ErrorKind;

/// `PING` is answered this, as an integer.
pub fn assert_ping(rt: &impl Test, con: &mut dyn ConnectionLike, wanted: &str) {
    let ping = command(rt.alloc(), &["PING"]).expect(rt, "memory");
    assert_answer(rt, ping.query::<i64>(con), wanted);
}

/// A device's text, how many bytes a call moves at most, and the call that fails and how.
pub type Spec = (&'static [u8], usize, usize, Option<ErrorKind>);

/// The device of a spec.
pub fn device(rt: &impl Test, (text, each, at, fault): Spec) -> Device {
    Device::failing(rt.alloc(), text, each, at, fault)
}

/// A writer that takes all.
pub const TAKES_ALL: Spec = (b"", usize::MAX, 0, None);

/// A link over these devices answers these calls so, and shows this in the end.
pub fn assert_session(
    rt: &impl Test,
    (reader, writer): (Spec, Spec),
    calls: &[Call],
    wanted: &str,
) {
    let devices = (device(rt, reader), device(rt, writer));
    assert_text(
        rt,
        session_text(rt.alloc(), Limits::default(), devices, calls),
        wanted,
    );
}

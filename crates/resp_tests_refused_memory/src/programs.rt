//! The program `resp`: it prints that memory ran out, with status 2, or what it prints with ample
//! memory.

use crate::heap::{Test, equal, refuse, was_refused};
use crate::links::link;
use resp_cli::{pack, query, read};

fn words(rt: &impl Test, line: &str) -> Vec<String> {
    let mut words = Vec::new(rt.alloc());
    for word in line.split(' ') {
        add_word(rt, &mut words, word);
    }
    words
}

fn add_word(rt: &impl Test, words: &mut Vec<String>, word: &str) {
    let word = String::from_str(rt.alloc(), word).expect(rt, "no refusal");
    words.push(word).expect(rt, "no refusal");
}

/// Room for what is printed.
fn room(rt: &impl Test) -> Vec<u8> {
    Vec::with_capacity(rt.alloc(), 1000).expect(rt, "no refusal")
}

/// The status, what is printed, and what is printed of a refusal.
type Printed<'a> = (u8, &'a [u8], &'a [u8]);

/// This was printed with this status, or `refused: out of memory` and no more than a beginning of
/// the output, with status 2.
fn printed(rt: &impl Test, (answer, printed, refusal): Printed, wanted: Printed) {
    let refused = was_refused(rt.alloc());
    let (status, out, err) = wanted;
    if refused && refusal == b"refused: out of memory\n".as_slice() {
        equal(rt, answer, 2);
        assert!(rt; out.starts_with(printed));
    } else {
        equal(rt, answer, status);
        equal(rt, printed, out);
        equal(rt, refusal, err);
    }
}

#[test]
fn packs(rt: HostRuntime) {
    let words = words(&rt, "SET key value");
    let (mut out, mut err) = (room(&rt), room(&rt));
    let packed = b"*3\r\n$3\r\nSET\r\n$3\r\nkey\r\n$5\r\nvalue\r\n".as_slice();
    refuse(rt.alloc());
    let status = pack(rt.alloc(), words.as_slice(), &mut out, &mut err);
    printed(
        &rt,
        (status, out.as_slice(), err.as_slice()),
        (0, packed, b""),
    );
}

/// Bytes, the status, and what is printed of them and of a refusal.
const READS: &[(&[u8], Printed<'static>)] = &[
    (
        b"+OK\r\n*2\r\n$3\r\nabc\r\n:1\r\n",
        (0, b"ok\narray([bulk-string('\"abc\"'), int(1)])\n", b""),
    ),
    (
        b":1\r\n*1\r\n:x\r\n",
        (2, b"int(1)\n", b"refused: NotInteger\n"),
    ),
    (b"*2\r\n+a\r\n:", (2, b"", b"refused: early end\n")),
];

/// Of these bytes this is printed.
fn prints(rt: &impl Test, mut input: &[u8], wanted: Printed) {
    let (mut out, mut err) = (room(rt), room(rt));
    refuse(rt.alloc());
    let status = read(rt.alloc(), &mut input, &mut out, &mut err);
    printed(rt, (status, out.as_slice(), err.as_slice()), wanted);
}

#[test]
fn reads(rt: HostRuntime) {
    for (bytes, wanted) in READS {
        prints(&rt, bytes, *wanted);
    }
}

/// Words, replies, the status, and what is printed on standard error.
const QUERIES: &[(&str, &[u8], u8, &[u8])] = &[
    ("GET k", b"$1\r\n1\r\n", 0, b"bulk-string('\"1\"')\n"),
    (
        "GET k",
        b"-ERR x\r\n",
        2,
        b"refused: response error 0:ERR\n",
    ),
    (
        "GET k",
        b"*1\r\n-LOADING\r\n",
        2,
        b"refused: busy loading 0:LOADING\n",
    ),
    ("A , B", b":1\r\n:2\r\n", 0, b"array([int(1), int(2)])\n"),
    (
        "A , B",
        b"-MINE x\r\n-CROSSSLOT x\r\n",
        2,
        b"refused: extension error 0:MINE 1:CROSSSLOT\n",
    ),
    (
        "--atomic A",
        b"+OK\r\n-ERR x\r\n-EXECABORT y\r\n",
        2,
        b"refused: script execution aborted 0:ERR\n",
    ),
];

/// A query of these words, which is answered by these replies, ends like this.
fn asks(rt: &impl Test, line: &str, replies: &[u8], wanted: Printed) {
    let words = words(rt, line);
    let mut con = link(rt, replies);
    let mut err = room(rt);
    refuse(rt.alloc());
    let answer = query(rt.alloc(), words.as_slice(), &mut con, &mut err);
    printed(rt, (answer, b"", err.as_slice()), wanted);
}

#[test]
fn queries(rt: HostRuntime) {
    for (line, replies, status, text) in QUERIES {
        asks(&rt, line, replies, (*status, b"", text));
    }
}

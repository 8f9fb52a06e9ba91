//! The program over memory. The replies are those of a redis-server 7.0.15 of seven keys.

use crate::call::cursor_place;
use crate::program::run;
use resp_core::{ByteLink, Reading, RedisResult, Writing, cmd};
use std::alloc::Global;
use std::io::Cursor;
use std::process::Abort;

type Link = ByteLink<Reading<Cursor<Vec<u8>>>, Writing<Vec<u8>>>;

fn link_over(rt: &(impl Abort + AllocGlobal), replies: &str) -> Link {
    let bytes = Vec::from_slice(rt.alloc(), replies.as_bytes()).expect(rt, "no refusal");
    ByteLink::new(rt.alloc(), Cursor::new(bytes), Vec::new(rt.alloc()))
}

/// The link has sent these bytes.
fn has_sent(rt: &impl Abort, link: Link, wanted: &str) {
    let (_source, sink) = link.into_ends();
    assert_eq!(rt; sink.into_inner().as_slice(), wanted.as_bytes());
}

fn words_of(rt: &(impl Abort + AllocGlobal), words: &[&str]) -> Vec<String> {
    let mut all = Vec::new(rt.alloc());
    for word in words {
        let word = String::from_str(rt.alloc(), word).expect(rt, "no refusal");
        all.push(word).expect(rt, "no refusal");
    }
    all
}

/// The exit status of the program with these words.
fn status_of(
    rt: &(impl Abort + AllocGlobal),
    words: &[&str],
    link: &mut Link,
    err: &mut Vec<u8>,
) -> u8 {
    run(rt.alloc(), words_of(rt, words).as_slice(), link, err)
}

/// The program with these words over these replies prints this, exits with this status, and has
/// sent these bytes.
fn scans(
    rt: &(impl Abort + AllocGlobal),
    words: &[&str],
    replies: &str,
    (printed, status): (&str, u8),
    sent: &str,
) {
    let mut link = link_over(rt, replies);
    let mut err: Vec<u8> = Vec::new(rt.alloc());
    assert_eq!(rt; status_of(rt, words, &mut link, &mut err), status);
    assert_eq!(rt; err.as_slice(), printed.as_bytes());
    has_sent(rt, link, sent);
}

const TWO_OF_SEVEN: &str = "*2\r\n$1\r\n4\r\n*0\r\n*2\r\n$1\r\n5\r\n*1\r\n$5\r\nkey:4\r\n\
    *2\r\n$1\r\n3\r\n*0\r\n*2\r\n$1\r\n0\r\n*1\r\n$5\r\nkey:3\r\n";

const TWO_PAIRS: &str =
    "*2\r\n$1\r\n0\r\n*4\r\n$4\r\nname\r\n$5\r\nredis\r\n$4\r\nport\r\n$4\r\n6379\r\n";

#[test]
fn prints_each_answer(rt: HostRuntime) {
    scans(
        &rt,
        &["scan", "COUNT", "2"],
        TWO_OF_SEVEN,
        (
            "Ok(bulk-string('\"key:4\"'))\nOk(bulk-string('\"key:3\"'))\n",
            0,
        ),
        "*4\r\n$4\r\nscan\r\n$1\r\n0\r\n$5\r\nCOUNT\r\n$1\r\n2\r\n\
         *4\r\n$4\r\nscan\r\n$1\r\n4\r\n$5\r\nCOUNT\r\n$1\r\n2\r\n\
         *4\r\n$4\r\nscan\r\n$1\r\n5\r\n$5\r\nCOUNT\r\n$1\r\n2\r\n\
         *4\r\n$4\r\nscan\r\n$1\r\n3\r\n$5\r\nCOUNT\r\n$1\r\n2\r\n",
    );
}

#[test]
fn a_cursor_after_the_key(rt: HostRuntime) {
    scans(
        &rt,
        &["HSCAN", "h"],
        TWO_PAIRS,
        (
            "Ok(bulk-string('\"name\"'))\nOk(bulk-string('\"redis\"'))\n\
             Ok(bulk-string('\"port\"'))\nOk(bulk-string('\"6379\"'))\n",
            0,
        ),
        "*3\r\n$5\r\nHSCAN\r\n$1\r\nh\r\n$1\r\n0\r\n",
    );
}

#[test]
fn no_words(rt: HostRuntime) {
    let usage = "usage: example_scan [BUDGET] WORD..\n";
    scans(&rt, &[], "", (usage, 1), "");
}

/// What the program with these words over these replies prints begins with this text; it exits with
/// this status.
fn begins(
    rt: &(impl Abort + AllocGlobal),
    words: &[&str],
    replies: &str,
    (printed, status): (&str, u8),
) {
    let mut link = link_over(rt, replies);
    let mut err: Vec<u8> = Vec::new(rt.alloc());
    assert_eq!(rt; status_of(rt, words, &mut link, &mut err), status);
    assert!(rt; err.starts_with(printed.as_bytes()));
}

#[test]
fn refusals(rt: HostRuntime) {
    // The budget is used up.
    let printed = "Ok(bulk-string('\"key:4\"'))\nErr(";
    begins(&rt, &["1", "SCAN"], TWO_OF_SEVEN, (printed, 0));
    // The scan is refused.
    begins(&rt, &["SCAN"], "-ERR x\r\n", ("refused: ", 2));
}

/// The cursor of this command comes after `place` words.
fn stands_at(rt: &(impl Abort + AllocGlobal), name: &str, place: usize) {
    let words = words_of(rt, &[name]);
    assert_eq!(rt; cursor_place(words.as_slice()), place);
}

#[test]
fn where_the_cursor_stands(rt: HostRuntime) {
    for (name, place) in [("SCAN", 1), ("HSCAN", 2), ("SSCAN", 2), ("zscan", 2)] {
        stands_at(&rt, name, place);
    }
}

/// All keys.
fn keys_of(alloc: Global, link: &mut Link) -> RedisResult<Vec<String>> {
    let mut keys = Vec::new(alloc);
    let mut scan = cmd(alloc, "SCAN")?;
    scan.push_cursor_arg(0)?;
    for key in scan.iter::<String, _>(link, 1_000)? {
        keys.push(key?)?;
    }
    Ok(keys)
}

#[test]
fn all_keys(rt: HostRuntime) {
    let mut link = link_over(&rt, TWO_OF_SEVEN);
    let keys = keys_of(rt.alloc(), &mut link).expect(&rt, "no refusal");
    assert_eq!(rt; keys.len(), 2);
}

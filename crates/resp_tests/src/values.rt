//! Values by hand: copies, attributes, pairs and pushes; lists, texts and boxes.

use crate::checks::{
    Test, assert_debug, assert_display, assert_equal, assert_text, reply, string, text,
};
use crate::testing::{answer_text, debug_text};
use resp_core::{Boxed, Bytes, Description, Items, OwnedMapIter, PushInfo, PushKind, Text, Value};

/// A value of each type.
const VALUES: &[&[u8]] = &[
    b":-9223372036854775808\r\n",
    b"_\r\n",
    b"+OK\r\n",
    b"+a\r\r\n",
    b"#t\r\n",
    b",-nan\r\n",
    b"(349\r\n",
    b"- x\r\n",
    b"-LOADING x\r\n",
    b"$2\r\n\xFF\0\r\n",
    b"=4\r\nmkd:\r\n",
    b"=7\r\nabc:d:e\r\n",
    b"*3\r\n+OK\r\n-LOADING x\r\n:1\r\n",
    b"~5\r\n+orange\r\n+apple\r\n#t\r\n:100\r\n:999\r\n",
    b"%2\r\n+first\r\n:1\r\n+second\r\n:2\r\n",
    b"|1\r\n+k\r\n:1\r\n:2\r\n",
    b">2\r\n$7\r\nmessage\r\n:1\r\n",
    b">0\r\n",
];

fn is_default(value: &Value) -> bool {
    *value == Value::default()
}

#[test]
fn values_equal_their_copies(rt: HostRuntime) {
    for bytes in VALUES {
        let value = reply(&rt, bytes);
        assert_equal(&rt, value.try_clone(rt.alloc()), &value);
        assert_eq!(rt; is_default(&value), bytes.starts_with(b"_"), "{bytes:?}");
    }
}

#[test]
fn an_attribute_keeps_its_pairs(rt: HostRuntime) {
    for (bytes, wanted) in [
        (
            "|1\r\n+k\r\n:1\r\n:2\r\n",
            "[(simple-string(\"k\"), int(1))]",
        ),
        ("|0\r\n_\r\n", "[]"),
        ("|0\r\n>2\r\n+message\r\n:1\r\n", "[]"),
    ] {
        match &reply(&rt, bytes.as_bytes()) {
            Value::Attribute { attributes, .. } => assert_debug(&rt, attributes, wanted),
            _ => assert!(rt; false, "{wanted}"),
        }
    }
}

/// The reply has these pairs, borrowed.
fn lends_pairs(rt: &impl Test, value: &Value, wanted: &[&str]) {
    let mut pairs = value.as_map_iter().expect(rt, "pairs");
    assert_eq!(rt; pairs.size_hint(), (wanted.len(), Some(wanted.len())));
    for wanted in wanted {
        assert_text(rt, debug_text(rt.alloc(), &pairs.next()), wanted);
    }
    assert!(rt; pairs.next().is_none());
}

/// What the next pair is, moved.
fn next_text(rt: &impl Test, pairs: &mut OwnedMapIter) -> String {
    debug_text(rt.alloc(), &pairs.next())
}

/// The pairs that are left are these.
fn gives_each(rt: &impl Test, pairs: &mut OwnedMapIter, wanted: &[&str]) {
    assert_eq!(rt; pairs.size_hint(), (wanted.len(), Some(wanted.len())));
    for wanted in wanted {
        assert_text(rt, next_text(rt, pairs), wanted);
    }
    assert_text(rt, next_text(rt, pairs), "None");
}

/// The reply has these pairs, moved.
fn gives_pairs(rt: &impl Test, value: Value, wanted: &[&str]) {
    match value.into_map_iter() {
        Ok(mut pairs) => gives_each(rt, &mut pairs, wanted),
        Err(_) => assert!(rt; false, "pairs"),
    }
}

#[test]
fn pairs_of_maps_and_arrays(rt: HostRuntime) {
    let first = "Some((simple-string(\"first\"), int(1)))";
    let wanted = [first, "Some((simple-string(\"second\"), int(2)))"];
    let map = reply(&rt, b"%2\r\n+first\r\n:1\r\n+second\r\n:2\r\n");
    lends_pairs(&rt, &map, wanted.as_slice());
    gives_pairs(&rt, map, wanted.as_slice());
    let wanted = ["Some((int(1), int(2)))", "Some((int(3), int(4)))"];
    let four = reply(&rt, b"*4\r\n:1\r\n:2\r\n:3\r\n:4\r\n");
    lends_pairs(&rt, &four, wanted.as_slice());
    gives_pairs(&rt, four, wanted.as_slice());
}

/// The value comes back.
fn comes_back<T: Drop>(rt: &impl Test, answer: Result<T, Value>, wanted: &str) {
    assert_debug(rt, &answer.err(), wanted);
}

#[test]
fn values_that_come_back(rt: HostRuntime) {
    let three = reply(&rt, b"*3\r\n:1\r\n:2\r\n:3\r\n");
    assert!(rt; three.as_map_iter().is_none());
    let wanted = "Some(array([int(1), int(2), int(3)]))";
    comes_back(&rt, three.into_map_iter(), wanted);
    let map = reply(&rt, b"%0\r\n");
    comes_back(&rt, map.into_sequence(rt.alloc()), "Some(map([]))");
    let unharmed = reply(&rt, b"%1\r\n+a\r\n*1\r\n+OK\r\n").extract_error();
    let wanted = "map([(simple-string(\"a\"), array([ok]))])";
    assert_text(&rt, answer_text(rt.alloc(), unharmed), wanted);
}

#[test]
fn a_push_equals_its_copy(rt: HostRuntime) {
    let payload = vec![in rt.alloc(); Value::Int(1)].expect(&rt, "memory");
    let push = PushInfo {
        kind: PushKind::Message,
        payload: Items::from(payload),
    };
    assert_equal(&rt, push.try_clone(), &push);
}

/// No reply is read as this kind; a program may make it.
#[test]
fn the_kind_of_a_lost_connection(rt: HostRuntime) {
    let lost = PushKind::Disconnection;
    assert_display(&rt, &lost, "disconnection");
    assert_debug(&rt, &lost, "Disconnection");
    assert_equal(&rt, lost.try_clone(rt.alloc()), &lost);
    assert!(rt; lost != PushKind::Other(text(&rt, "disconnection")));
}

#[test]
fn items_as_a_list_and_a_slice(rt: HostRuntime) {
    let mut items = Items::from(vec![in rt.alloc(); 1, 2].expect(&rt, "memory"));
    items.push(3).expect(&rt, "memory");
    assert!(rt; items.len() == 3 && !items.is_empty() && items.pop() == Some(3));
    items.extend_from_slice(&[4, 5]).expect(&rt, "memory");
    let made = Items::from_slice(items.allocator(), items.as_slice());
    assert_equal(&rt, made, &items);
    assert_debug(&rt, &items, "[1, 2, 4, 5]");
    assert!(rt; items[2] == 4 && items.get(4).is_none() && items.last() == Some(&5));
    let mut sum = 0_i32;
    for item in &items {
        sum = sum.saturating_add(*item);
    }
    assert!(rt; sum == 12 && items.into_vec().len() == 4);
}

/// Bytes are these, and so are a copy and what is taken out of one.
fn are(rt: &impl Test, bytes: &Bytes, wanted: &[u8]) {
    assert!(rt; bytes.as_slice() == wanted && bytes.len() == wanted.len());
    assert_equal(rt, Bytes::from_slice(rt.alloc(), bytes.as_slice()), bytes);
    let copy = Bytes::from_slice(rt.alloc(), bytes.as_slice()).expect(rt, "memory");
    let given_back = copy.into_vec().expect(rt, "memory");
    assert!(rt; given_back.as_slice() == wanted);
}

/// Bytes behave alike whether they stand in the value, or, from the 41st on, on the heap.
#[test]
fn bytes_inline_and_on_the_heap(rt: HostRuntime) {
    let mut bytes = Bytes::with_capacity(rt.alloc(), 0).expect(&rt, "memory");
    let mut wanted = Vec::new(rt.alloc());
    assert!(rt; bytes.is_empty());
    for byte in 0..99 {
        bytes.extend_from_slice(&[byte]).expect(&rt, "memory");
        wanted.push(byte).expect(&rt, "memory");
        are(&rt, &bytes, wanted.as_slice());
    }
    let short = vec![in rt.alloc(); 1u8, 255].expect(&rt, "memory");
    assert_debug(&rt, &Bytes::from(short), "[1, 255]");
    assert!(rt;
        bytes.last() == Some(&98) && bytes.get(99).is_none() && Bytes::from(wanted) == bytes
    );
}

#[test]
fn texts_and_boxes(rt: HostRuntime) {
    let text = Text::from_str(rt.alloc(), "a\"").expect(&rt, "memory");
    assert!(rt; text.len() == 2 && text.starts_with('a') && !text.is_empty());
    assert!(rt; text.eq_str("a\"") && !text.eq_str("A\""));
    assert_equal(&rt, text.try_clone(rt.alloc()), &text);
    assert_display(&rt, &text, "a\"");
    assert_debug(&rt, &text, "\"a\\\"\"");
    assert_text(&rt, text.into_string(), "a\"");
    let boxed = Boxed::new(rt.alloc(), 7).expect(&rt, "memory");
    assert_debug(&rt, &boxed, "7");
    assert!(rt; *boxed.get() == 7 && boxed.into_inner() == 7);
}

#[test]
fn fixed_texts_keep_64_bytes(rt: HostRuntime) {
    let full = "0123456789012345678901234567890123456789012345678901234567890123";
    let long = "01234567890123456789012345678901234567890123456789012345678901234";
    let kept = "0123456789012345678901234567890123456789012345678901234567890...";
    let wide = "012345678901234567890123456789012345678901234567890123456789\u{E9}\u{E9}\u{E9}";
    let cut = "012345678901234567890123456789012345678901234567890123456789...";
    for (text, kept) in [("a", "a"), (full, full), (long, kept), (wide, cut)] {
        assert_eq!(rt; Description::from(text).as_str(), kept, "{text}");
    }
    let text = Description::from(string(&rt, "a"));
    assert_equal(&rt, text.try_clone(rt.alloc()), &Description::from("a"));
}

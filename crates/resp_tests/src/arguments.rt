//! Rust values as arguments, each with its length before it; in brackets for how many they count.

use crate::checks::{assert_args, assert_debug, assert_made_args};
use crate::writing::WIDE;
use resp_core::{
    ExistenceCheck, ExpireOption, Expiry, FieldExistenceCheck, NumericBehavior, ProtocolVersion,
    SetExpiry, ToRedisArgs, ValueComparison,
};
use std::borrow::{CowSlice, CowStr};
use std::boxed::BoxedSlice;
use std::collections::{BTreeMap, BTreeSet, HashMap, HashSet};
use std::rc::{Rc, RcSlice};

#[test]
fn scalars_and_texts_are_one_argument(rt: HostRuntime) {
    each! { assert_args, rt;
        &42i32 => "2:42 (1)",
        &i8::MIN => "4:-128 (1)",
        &0u8 => "1:0 (1)",
        &-1i64 => "2:-1 (1)",
        &u64::MAX => "20:18446744073709551615 (1)",
        &i128::MIN => "40:-170141183460469231731687303715884105728 (1)",
        &u128::MAX => "39:340282366920938463463374607431768211455 (1)",
        &true => "1:1 (1)",
        &false => "1:0 (1)",
        &"my_key" => "6:my_key (1)",
        &"" => "0: (1)",
        &CowStr::from("ab") => "2:ab (1)",
    }
    assert_made_args(&rt, String::from_str(rt.alloc(), "a b"), "3:a b (1)");
}

#[test]
fn bytes_are_one_argument_and_slices_their_items(rt: HostRuntime) {
    each! { assert_args, rt;
        &Vec::<u8>::new(rt.alloc()) => "0: (1)",
        &b"a\r\n".as_slice() => "3:a\r\n (1)",
        &b"ab" => "2:ab (1)",
        &CowSlice::from(b"ab".as_slice()) => "2:ab (1)",
        &[b"a".as_slice(), b"bc".as_slice()].as_slice() => "1:a 2:bc (2)",
        &&[1i64, 2] => "1:1 1:2 (2)",
        &[(1i64, "a", true)].as_slice() => "1:1 1:a 1:1 (3)",
        &[None::<i64>].as_slice() => "(1)",
        &[Some(1i64), None, Some(-3)].as_slice() => "1:1 2:-3 (3)",
    }
    assert!(rt; !i64::is_single_vec_arg(&[1, 2]) && u8::is_single_vec_arg(b"ab"));
}

#[test]
fn vectors_and_owners_are_what_they_hold(rt: HostRuntime) {
    let alloc = rt.alloc();
    let bytes = vec![in alloc; 7u8, 8u8].expect(&rt, "memory");
    each! { assert_made_args, rt;
        vec![in alloc; (1i64, 2i64)] => "1:1 1:2 (2)",
        vec![in alloc; Some(1i64), None] => "1:1 (2)",
        vec![in alloc; None::<i64>] => "(1)",
        vec![in alloc; bytes] => "2:\u{7}\u{8} (1)",
        Box::new(alloc, 5i64) => "1:5 (1)",
        Rc::new(alloc, "a") => "1:a (1)",
        BoxedSlice::from_slice(alloc, b"ab") => "2:ab (1)",
        RcSlice::from_slice(alloc, b"ab") => "2:ab (1)",
    }
    let mut number = 3u16;
    assert_args(&rt, &&mut number, "1:3 (1)");
    assert_args(&rt, &&7u8, "1:7 (1)");
}

#[test]
fn tuples_are_their_elements(rt: HostRuntime) {
    each! { assert_args, rt;
        &("a",) => "1:a (1)",
        &("a", Some(2i64)) => "1:a 1:2 (2)",
        &("a", None::<i64>) => "1:a (2)",
        &(1u8, 2u8, 3u8, 4u8, 5u8, 6u8, 7u8, 8u8, 9u8, "x", true, "yz") =>
            "1:1 1:2 1:3 1:4 1:5 1:6 1:7 1:8 1:9 1:x 1:1 2:yz (12)",
    }
}

#[test]
fn sets_and_maps_are_their_entries(rt: HostRuntime) {
    let alloc = rt.alloc();
    each! { assert_made_args, rt;
        BTreeSet::from_array(alloc, [2u32, 1]) => "1:1 1:2 (2)",
        BTreeMap::from_array(alloc, [("b", 2u32), ("a", 1)]) => "1:a 1:1 1:b 1:2 (2)",
        HashMap::from_array(alloc, [("a", "b")]) => "1:a 1:b (1)",
    }
    let pair = BTreeMap::from_array(alloc, [((1i64, 2i64), 3i64)]);
    assert_made_args(&rt, pair, WIDE);
    // Hashed members come in some order.
    let members = HashSet::from_array(alloc, [1i64, 2]).expect(&rt, "memory");
    let in_order = members.iter().next() == Some(&1);
    let wanted = if in_order {
        "1:1 1:2 (2)"
    } else {
        "1:2 1:1 (2)"
    };
    assert_args(&rt, &members, wanted);
}

#[test]
fn options_of_commands_are_words(rt: HostRuntime) {
    each! { assert_args, rt;
        &SetExpiry::EX(10) => "2:EX 2:10 (1)",
        &SetExpiry::PX(0) => "2:PX 1:0 (1)",
        &SetExpiry::EXAT(u64::MAX) => "4:EXAT 20:18446744073709551615 (1)",
        &SetExpiry::PXAT(1) => "4:PXAT 1:1 (1)",
        &[SetExpiry::EX(1), SetExpiry::KEEPTTL].as_slice() => "2:EX 1:1 7:KEEPTTL (2)",
        &ExistenceCheck::NX => "2:NX (1)",
        &ExistenceCheck::XX => "2:XX (1)",
        &FieldExistenceCheck::FNX => "3:FNX (1)",
        &FieldExistenceCheck::FXX => "3:FXX (1)",
        &ExpireOption::NONE => "(1)",
        &ExpireOption::NX => "2:NX (1)",
        &ExpireOption::XX => "2:XX (1)",
        &ExpireOption::GT => "2:GT (1)",
        &ExpireOption::LT => "2:LT (1)",
    }
    assert!(rt; matches!(Expiry::EX(1).clone(), Ok(Expiry::EX(1))));
    assert!(rt; !ProtocolVersion::default().supports_resp3());
    assert!(rt; ProtocolVersion::RESP3.supports_resp3());
}

#[test]
fn comparisons_are_a_name_and_a_text(rt: HostRuntime) {
    let alloc = rt.alloc();
    each! { assert_made_args, rt;
        ValueComparison::ifeq(alloc, 5i64) => "4:IFEQ 1:5 (1)",
        ValueComparison::ifne(alloc, "x") => "4:IFNE 1:x (1)",
        ValueComparison::ifdeq(alloc, "d") => "5:IFDEQ 1:d (1)",
        ValueComparison::ifdne(alloc, "") => "5:IFDNE 0: (1)",
        // A byte that is no text is replaced.
        ValueComparison::ifeq(alloc, [0xFFu8].as_slice()) => "4:IFEQ 3:\u{FFFD} (1)",
    }
    let equal = ValueComparison::ifeq(alloc, 5i64).expect(&rt, "memory");
    assert_made_args(&rt, equal.try_clone(alloc), "4:IFEQ 1:5 (1)");
    assert_debug(&rt, &equal, "IFEQ(\"5\")");
}

/// Whether the value is written as an integer.
fn is_integer<T: ToRedisArgs>(value: &T) -> bool {
    value.describe_numeric_behavior() == NumericBehavior::NumberIsInteger
}

#[test]
fn which_are_numbers(rt: HostRuntime) {
    assert!(rt; is_integer(&7u16) && is_integer(&Some(1i64)));
    assert!(rt; !is_integer(&7u8) && !is_integer(&true) && !is_integer(&"7"));
    assert!(rt; !is_integer(&None::<i64>) && !is_integer(&[1i64].as_slice()));
}

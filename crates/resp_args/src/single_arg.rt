//! What gives exactly one argument.

ghost use Rattle.std.specs.Fmt.{decimal, signed_decimal};
ghost use Rattle.resp_args.specs.SingleArg.{IsSingle, one_argument, single_through};

use crate::args::ToRedisArgs;
use std::borrow::{CowSlice, CowStr};
use std::boxed::BoxedSlice;
use std::rc::{Rc, RcSlice};

/// A value that gives exactly one argument, as a key.
///
/// Every implementation proves that it appends exactly one argument, counts for one, and is refused
/// only with `OutOfMemory`.
pub trait ToSingleRedisArg: ToRedisArgs {
    /// It is always one argument.
    ghost single: { IsSingle Self.gives Self.refuses Self.count };
}

impl ToSingleRedisArg for i8 {
    ghost single = { one_argument signed_decimal };
}

impl ToSingleRedisArg for i16 {
    ghost single = { one_argument signed_decimal };
}

impl ToSingleRedisArg for i32 {
    ghost single = { one_argument signed_decimal };
}

impl ToSingleRedisArg for i64 {
    ghost single = { one_argument signed_decimal };
}

impl ToSingleRedisArg for i128 {
    ghost single = { one_argument signed_decimal };
}

impl ToSingleRedisArg for isize {
    ghost single = { one_argument signed_decimal };
}

impl ToSingleRedisArg for u8 {
    ghost single = { one_argument decimal };
}

impl ToSingleRedisArg for u16 {
    ghost single = { one_argument decimal };
}

impl ToSingleRedisArg for u32 {
    ghost single = { one_argument decimal };
}

impl ToSingleRedisArg for u64 {
    ghost single = { one_argument decimal };
}

impl ToSingleRedisArg for u128 {
    ghost single = { one_argument decimal };
}

impl ToSingleRedisArg for usize {
    ghost single = { one_argument decimal };
}

impl ToSingleRedisArg for bool {
    ghost use Rattle.resp_args.specs.Args.{digit_of};

    ghost single = { one_argument digit_of };
}

impl ToSingleRedisArg for &str {
    ghost single = { one_argument (λ text. text.now) };
}

impl ToSingleRedisArg for String {
    ghost use Rattle.std.specs.Prelude.{string_bytes};

    ghost single = { one_argument string_bytes };
}

impl ToSingleRedisArg for CowStr<'_> {
    ghost use Rattle.std.specs.Cow.{cow_str_bytes};

    ghost single = { one_argument cow_str_bytes };
}

impl ToSingleRedisArg for CowSlice<'_, u8> {
    ghost use Rattle.std.specs.Cow.{cow_slice_items};

    ghost single = { one_argument cow_slice_items };
}

impl ToSingleRedisArg for &[u8] {
    ghost single = { one_argument (λ bytes. bytes.now) };
}

impl ToSingleRedisArg for &mut [u8] {
    ghost single = { one_argument (λ bytes. bytes.now) };
}

impl<const N: usize> ToSingleRedisArg for &[u8; N] {
    ghost single = { one_argument (λ bytes. bytes.now) };
}

impl ToSingleRedisArg for Vec<u8> {
    ghost single = { one_argument (λ bytes. bytes.items) };
}

impl ToSingleRedisArg for BoxedSlice<u8> {
    ghost use Rattle.std.specs.Box.{boxed_slice_items};

    ghost single = { one_argument boxed_slice_items };
}

impl ToSingleRedisArg for RcSlice<u8> {
    ghost use Rattle.std.specs.Rc.{rc_slice_items};

    ghost single = { one_argument rc_slice_items };
}

impl<T: ToSingleRedisArg> ToSingleRedisArg for &T {
    ghost single = { single_through (λ x. x.now) T.single };
}

impl<T: ToSingleRedisArg> ToSingleRedisArg for &mut T {
    ghost single = { single_through (λ x. x.now) T.single };
}

impl<T: ToSingleRedisArg> ToSingleRedisArg for Box<T> {
    ghost single = { single_through (λ x. x.value) T.single };
}

impl<T: ToSingleRedisArg> ToSingleRedisArg for Rc<T> {
    ghost single = { single_through (λ x. x.value) T.single };
}

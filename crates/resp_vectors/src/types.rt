//! Types by their names.

use crate::rows::malformed;
use resp_core::{
    DoubleText, FromRedisValue, IncrexResult, IntegerReplyOrNoOp, Items, RedisResult, ReplicaInfo,
    Role, Text, Value, ValueType,
};
use std::boxed::BoxedSlice;
use std::collections::{BTreeMap, BTreeSet, HashMap, HashSet};
use std::fmt::Debug;
use std::rc::Rc;

/// What is done at a type.
pub trait AtType {
    fn at<T: FromRedisValue + Debug>(&self) -> RedisResult<String>;
}

/// Does the work of lists and scans at the type of this name, which is that of an item.
pub fn at_item_type<W: AtType>(name: &str, work: &W) -> RedisResult<String> {
    match name {
        "i64" => work.at::<i64>(),
        "u8" => work.at::<u8>(),
        "String" => work.at::<String>(),
        "(i64,i64)" => work.at::<(i64, i64)>(),
        "(String,i64)" => work.at::<(String, i64)>(),
        _ => Err(malformed()),
    }
}

/// Does the work of a query at the type of this name.
pub fn at_answer_type<W: AtType>(name: &str, work: &W) -> RedisResult<String> {
    match name {
        "Value" => work.at::<Value>(),
        "i64" => work.at::<i64>(),
        "String" => work.at::<String>(),
        "()" => work.at::<()>(),
        "(i64,)" => work.at::<(i64,)>(),
        "(i64,i64)" => work.at::<(i64, i64)>(),
        "Option<(i64,)>" => work.at::<Option<(i64,)>>(),
        "Vec<i64>" => work.at::<Vec<i64>>(),
        "Vec<String>" => work.at::<Vec<String>>(),
        "Vec<RedisResult<i64>>" => work.at::<Vec<RedisResult<i64>>>(),
        "Vec<RedisResult<Value>>" => work.at::<Vec<RedisResult<Value>>>(),
        _ => Err(malformed()),
    }
}

/// Does the work of a conversion at the type of this name.
pub fn at_type<W: AtType>(name: &str, work: &W) -> RedisResult<String> {
    match name {
        "i8" => work.at::<i8>(),
        "i16" => work.at::<i16>(),
        "i32" => work.at::<i32>(),
        "i64" => work.at::<i64>(),
        "i128" => work.at::<i128>(),
        "isize" => work.at::<isize>(),
        "u8" => work.at::<u8>(),
        "u16" => work.at::<u16>(),
        "u32" => work.at::<u32>(),
        "u64" => work.at::<u64>(),
        "u128" => work.at::<u128>(),
        "usize" => work.at::<usize>(),
        _ => at_scalar(name, work),
    }
}

fn at_scalar<W: AtType>(name: &str, work: &W) -> RedisResult<String> {
    match name {
        "()" => work.at::<()>(),
        "bool" => work.at::<bool>(),
        "String" => work.at::<String>(),
        "Text" => work.at::<Text>(),
        "Value" => work.at::<Value>(),
        "Box<i64>" => work.at::<Box<i64>>(),
        "Rc<String>" => work.at::<Rc<String>>(),
        "Option<i64>" => work.at::<Option<i64>>(),
        "Option<String>" => work.at::<Option<String>>(),
        "Option<Option<i64>>" => work.at::<Option<Option<i64>>>(),
        "RedisResult<i64>" => work.at::<RedisResult<i64>>(),
        "RedisResult<Value>" => work.at::<RedisResult<Value>>(),
        _ => at_list(name, work),
    }
}

fn at_list<W: AtType>(name: &str, work: &W) -> RedisResult<String> {
    match name {
        "Vec<u8>" => work.at::<Vec<u8>>(),
        "Vec<i64>" => work.at::<Vec<i64>>(),
        "Vec<bool>" => work.at::<Vec<bool>>(),
        "Vec<String>" => work.at::<Vec<String>>(),
        "Vec<Value>" => work.at::<Vec<Value>>(),
        "Vec<()>" => work.at::<Vec<()>>(),
        "Vec<Option<String>>" => work.at::<Vec<Option<String>>>(),
        "Vec<RedisResult<i64>>" => work.at::<Vec<RedisResult<i64>>>(),
        "Vec<RedisResult<Value>>" => work.at::<Vec<RedisResult<Value>>>(),
        "Vec<Vec<u8>>" => work.at::<Vec<Vec<u8>>>(),
        "Vec<Vec<i64>>" => work.at::<Vec<Vec<i64>>>(),
        "Vec<BTreeMap<String,i64>>" => work.at::<Vec<BTreeMap<String, i64>>>(),
        "Items<i64>" => work.at::<Items<i64>>(),
        "Option<Vec<i64>>" => work.at::<Option<Vec<i64>>>(),
        _ => at_array(name, work),
    }
}

fn at_array<W: AtType>(name: &str, work: &W) -> RedisResult<String> {
    match name {
        "BoxedSlice<i64>" => work.at::<BoxedSlice<i64>>(),
        "[u8;3]" => work.at::<[u8; 3]>(),
        "[i64;0]" => work.at::<[i64; 0]>(),
        "[i64;2]" => work.at::<[i64; 2]>(),
        "[i64;3]" => work.at::<[i64; 3]>(),
        "[String;2]" => work.at::<[String; 2]>(),
        "[(i64,i64);2]" => work.at::<[(i64, i64); 2]>(),
        "Vec<(i64,)>" => work.at::<Vec<(i64,)>>(),
        "Vec<(i64,i64)>" => work.at::<Vec<(i64, i64)>>(),
        "Vec<(i64,i64,i64)>" => work.at::<Vec<(i64, i64, i64)>>(),
        "Vec<((i64,i64),i64)>" => work.at::<Vec<((i64, i64), i64)>>(),
        "Vec<(String,i64)>" => work.at::<Vec<(String, i64)>>(),
        "Vec<(String,DoubleText)>" => work.at::<Vec<(String, DoubleText)>>(),
        "Vec<Option<(i64,i64)>>" => work.at::<Vec<Option<(i64, i64)>>>(),
        _ => at_tuple(name, work),
    }
}

fn at_tuple<W: AtType>(name: &str, work: &W) -> RedisResult<String> {
    match name {
        "(i64,)" => work.at::<(i64,)>(),
        "(i64,i64)" => work.at::<(i64, i64)>(),
        "(String,i64)" => work.at::<(String, i64)>(),
        "(String,String)" => work.at::<(String, String)>(),
        "(String,i64,bool)" => work.at::<(String, i64, bool)>(),
        "(String,String,u16,String,i64)" => work.at::<(String, String, u16, String, i64)>(),
        "((i64,i64),(i64,i64))" => work.at::<((i64, i64), (i64, i64))>(),
        "(Vec<i64>,i64)" => work.at::<(Vec<i64>, i64)>(),
        "Option<(i64,)>" => work.at::<Option<(i64,)>>(),
        _ => at_wide_tuple(name, work),
    }
}

fn at_wide_tuple<W: AtType>(name: &str, work: &W) -> RedisResult<String> {
    match name {
        "(i64,i64,i64,i64)" => work.at::<(i64, i64, i64, i64)>(),
        "(i64,i64,i64,i64,i64,i64)" => work.at::<(i64, i64, i64, i64, i64, i64)>(),
        "(i64,i64,i64,i64,i64,i64,i64)" => work.at::<(i64, i64, i64, i64, i64, i64, i64)>(),
        "(i64,i64,i64,i64,i64,i64,i64,i64)" => work.at::<
            (i64, i64, i64, i64, i64, i64, i64, i64),
        >(),
        "(i64,i64,i64,i64,i64,i64,i64,i64,i64)" => work.at::<
            (i64, i64, i64, i64, i64, i64, i64, i64, i64),
        >(),
        "(i64,i64,i64,i64,i64,i64,i64,i64,i64,i64)" => work.at::<
            (i64, i64, i64, i64, i64, i64, i64, i64, i64, i64),
        >(),
        "(i64,i64,i64,i64,i64,i64,i64,i64,i64,i64,i64)" => work.at::<
            (i64, i64, i64, i64, i64, i64, i64, i64, i64, i64, i64),
        >(),
        "(i64,i64,i64,i64,i64,i64,i64,i64,i64,i64,i64,i64)" => work.at::<
            (i64, i64, i64, i64, i64, i64, i64, i64, i64, i64, i64, i64),
        >(),
        _ => at_keyed(name, work),
    }
}

fn at_keyed<W: AtType>(name: &str, work: &W) -> RedisResult<String> {
    match name {
        "BTreeMap<i64,i64>" => work.at::<BTreeMap<i64, i64>>(),
        "BTreeMap<String,i64>" => work.at::<BTreeMap<String, i64>>(),
        "BTreeMap<String,String>" => work.at::<BTreeMap<String, String>>(),
        "BTreeMap<String,Value>" => work.at::<BTreeMap<String, Value>>(),
        "BTreeMap<String,Vec<i64>>" => work.at::<BTreeMap<String, Vec<i64>>>(),
        "HashMap<String,i64>" => work.at::<HashMap<String, i64>>(),
        "BTreeSet<i64>" => work.at::<BTreeSet<i64>>(),
        "BTreeSet<String>" => work.at::<BTreeSet<String>>(),
        "HashSet<i64>" => work.at::<HashSet<i64>>(),
        "Role" => work.at::<Role>(),
        "ReplicaInfo" => work.at::<ReplicaInfo>(),
        "ValueType" => work.at::<ValueType>(),
        "DoubleText" => work.at::<DoubleText>(),
        "IntegerReplyOrNoOp" => work.at::<IntegerReplyOrNoOp>(),
        "IncrexResult" => work.at::<IncrexResult>(),
        _ => Err(malformed()),
    }
}

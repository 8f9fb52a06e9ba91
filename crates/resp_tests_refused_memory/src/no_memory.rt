//! Calls that take no memory, by name: none makes a request.
//!
//! What a test calls them on is made first. Then all requests are refused, up to its last line,
//! which asks whether one was.

use crate::heap::{Test, equal, refuse_all, was_refused};
use crate::links::{Link, link};
use crate::made::get;
use crate::subjects::Subject;
use resp_core::{
    ArgList, ArgWriter, Boxed, ByteLink, Bytes, Cmd, CommandSink, ConnectionLike, DoubleText,
    Fields, FlatParser, FlatReply, FlatValue, FromRedisValue, History, InfoDict,
    IntegerReplyOrNoOp, Items, Limits, NumericBehavior, Parser, Pipeline, ProtocolVersion,
    PushKind, Reading, RedisWrite, Reply, ReplySource, Text, ToRedisArgs, Token, TokenKind, Value,
    ValueType, VerbatimFormat, Writing, from_redis_value, from_redis_value_ref, get_push_kind,
    is_double_text, is_valid_16_bytes_hex_digest, parse_redis_value, pipe, verbatim_format,
};
use resp_encode::Tokens;
use std::alloc::Global;
use std::collections::BTreeMap;

/// No request was made since all were refused.
pub fn took_none(rt: &impl Test) {
    assert!(rt; !was_refused(rt.alloc()));
}

pub fn text(rt: &impl Test, text: &str) -> String {
    String::from_str(rt.alloc(), text).expect(rt, "no refusal")
}

fn reply<T: FromRedisValue>(rt: &impl Test, bytes: &[u8]) -> T {
    let value = parse_redis_value(rt.alloc(), bytes).expect(rt, "no refusal");
    from_redis_value(rt.alloc(), value).expect(rt, "no refusal")
}

#[test]
fn commands(rt: HostRuntime) {
    let mut command = Cmd::of_size(&rt, 9);
    refuse_all(rt.alloc());
    let _ = command.set_no_response(true);
    assert!(rt; command.is_no_response() && !command.is_empty() && !command.in_scan_mode());
    assert!(rt; !command.is_unanswered());
    equal(&rt, command.args_iter().len(), 2);
    equal(&rt, command.framed().len(), 24);
    took_none(&rt);
}

#[test]
fn cleared_commands(rt: HostRuntime) {
    let mut command = Cmd::of_size(&rt, 9);
    refuse_all(rt.alloc());
    let mut taken = command.take();
    taken.set_cursor(7);
    taken.clear();
    assert!(rt; taken.is_empty() && Cmd::new(rt.alloc()).is_empty());
    took_none(&rt);
}

#[test]
fn histories(rt: HostRuntime) {
    refuse_all(rt.alloc());
    let mut came = History::new();
    came.append(b"+OK");
    took_none(&rt);
}

#[test]
fn pipelines(rt: HostRuntime) {
    let mut pipeline = Pipeline::of_size(&rt, 3);
    refuse_all(rt.alloc());
    let _ = pipeline.ignore();
    let _ = pipeline.atomic();
    let _ = pipeline.ignore_errors();
    assert!(rt; pipeline.is_transaction() && pipeline.len() == 3);
    equal(&rt, pipeline.cmd_iter().len(), 3);
    equal(&rt, pipeline.commands().len(), 3);
    equal(&rt, pipeline.replies_needed(), 5);
    took_none(&rt);
}

#[test]
fn cleared_pipelines(rt: HostRuntime) {
    let mut pipeline = Pipeline::of_size(&rt, 3);
    refuse_all(rt.alloc());
    pipeline.clear();
    assert!(rt; pipeline.is_empty() && pipe(rt.alloc()).is_empty());
    assert!(rt; Pipeline::new(rt.alloc()).is_empty());
    took_none(&rt);
}

#[test]
fn argument_lists(rt: HostRuntime) {
    let mut list = ArgList::of_size(&rt, 3);
    let longer = Vec::<u8>::of_size(&rt, 9);
    refuse_all(rt.alloc());
    list.replace(0, longer);
    assert!(rt; list.get(0).is_some() && list.as_slice().len() == 1 && list.len() == 1);
    list.truncate(1);
    list.clear();
    assert!(rt; list.is_empty() && ArgList::new(rt.alloc()).is_empty());
    took_none(&rt);
}

#[test]
fn writers_of_an_argument(rt: HostRuntime) {
    let mut command = get(&rt);
    let writer = command.writer_for_next_arg();
    let mut writer: ArgWriter<'_, Cmd> = writer.expect(&rt, "no refusal");
    refuse_all(rt.alloc());
    writer.flush().expect(&rt, "nothing to flush");
    drop(writer);
    took_none(&rt);
}

#[test]
fn arguments(rt: HostRuntime) {
    refuse_all(rt.alloc());
    equal(&rt, ("a", 1i64, Some("b")).num_of_args(), 3);
    equal(
        &rt,
        1i64.describe_numeric_behavior(),
        NumericBehavior::NumberIsInteger,
    );
    assert!(rt; <&str>::is_single_vec_arg(&["a"]));
    assert!(rt; is_valid_16_bytes_hex_digest("0123456789abcdef"));
    assert!(rt; ProtocolVersion::RESP3.supports_resp3());
    took_none(&rt);
}

#[test]
fn items(rt: HostRuntime) {
    let mut items = Items::<u8>::of_size(&rt, 2);
    refuse_all(rt.alloc());
    assert!(rt; items.len() == 2 && items.as_slice().len() == 2 && !items.is_empty());
    assert!(rt; items.pop() == Some(b'x') && Items::<u8>::new(items.allocator()).is_empty());
    equal(&rt, Items::from(items.into_vec()).len(), 1);
    took_none(&rt);
}

/// Up to 40 bytes take no memory, and more are given back as they are.
#[test]
fn short_bytes(rt: HostRuntime) {
    let forty = Vec::<u8>::of_size(&rt, 40);
    let long = Bytes::from(Vec::<u8>::of_size(&rt, 41));
    refuse_all(rt.alloc());
    let mut bytes = Bytes::new(rt.alloc());
    bytes
        .extend_from_slice(forty.as_slice())
        .expect(&rt, "no request");
    assert!(rt; bytes.len() == 40 && bytes.as_slice() == forty.as_slice() && !bytes.is_empty());
    equal(&rt, Bytes::from(forty).len(), 40);
    equal(&rt, long.into_vec().map(|bytes| bytes.len()), Ok(41));
    took_none(&rt);
}

#[test]
fn texts(rt: HostRuntime) {
    let word = text(&rt, "abc");
    refuse_all(rt.alloc());
    let word = Text::from(word);
    assert!(rt; word.len() == 3 && !word.is_empty() && word.eq_str("abc"));
    equal(&rt, word.as_str().len(), word.into_string().len());
    took_none(&rt);
}

#[test]
fn boxes(rt: HostRuntime) {
    let boxed = Boxed::new(rt.alloc(), 5u8).expect(&rt, "no refusal");
    refuse_all(rt.alloc());
    equal(&rt, *boxed.get(), 5);
    equal(&rt, boxed.into_inner(), 5);
    took_none(&rt);
}

#[test]
fn parsers(rt: HostRuntime) {
    let parser = Parser::of_size(&rt, 1);
    let fed = Parser::of_size(&rt, 0);
    refuse_all(rt.alloc());
    assert!(rt; parser.in_progress() && !parser.is_failed() && parser.fault_offset().is_none());
    assert!(rt; fed.unparsed_len() > parser.unparsed_len() && fed.value_len() == 0);
    assert!(rt; parser.limits() == Limits::default() && parser.depth_limit() == 100);
    took_none(&rt);
}

#[test]
fn bytes_that_a_parser_holds(rt: HostRuntime) {
    let mut parser = Parser::new(rt.alloc());
    parser.feed(b":7\r\n").expect(&rt, "no refusal");
    refuse_all(rt.alloc());
    let held = parser.unparsed().len();
    equal(&rt, held, 4);
    parser.skip(held);
    assert!(rt; parser.unparsed().is_empty());
    took_none(&rt);
}

/// The parser gives six values more.
fn gives_six(rt: &impl Test, parser: &mut Parser) {
    for _ in 0..6 {
        let value = parser.take_value().expect(rt, "no refusal");
        assert!(rt; value.is_some());
    }
}

/// Once a parser has given a value that isn't read at once, those without parts take no memory.
#[test]
fn later_values(rt: HostRuntime) {
    let mut parser = Parser::new(rt.alloc());
    let bytes = b":100\r\n:2\r\n_\r\n:3\r\n+OK\r\n:4\r\n:5\r\n";
    parser.feed(bytes).expect(&rt, "no refusal");
    let first = parser.take_value().expect(&rt, "no refusal");
    assert!(rt; first.is_some());
    refuse_all(rt.alloc());
    gives_six(&rt, &mut parser);
    took_none(&rt);
}

#[test]
fn flat_replies(rt: HostRuntime) {
    let mut flat = FlatReply::new(rt.alloc());
    flat.append(&Value::Int(7)).expect(&rt, "no refusal");
    refuse_all(rt.alloc());
    flat.clear();
    assert!(rt; flat.tokens.is_empty() && FlatReply::new(rt.alloc()).text.is_empty());
    took_none(&rt);
}

#[test]
fn cursors_over_flat_replies(rt: HostRuntime) {
    let bytes = b"|1\r\n+ttl\r\n:1\r\n*2\r\n#t\r\n$1\r\na\r\n";
    let value = parse_redis_value(rt.alloc(), bytes).expect(&rt, "no refusal");
    let mut flat = FlatReply::new(rt.alloc());
    flat.append(&value).expect(&rt, "no refusal");
    refuse_all(rt.alloc());
    let root: FlatValue<'_> = flat.root().expect(&rt, "a token");
    assert!(rt; root.kind() == TokenKind::Attribute && !TokenKind::Attribute.has_text());
    assert!(rt; root.len() == 1 && !root.is_empty());
    let (key, number) = root.pairs().next().expect(&rt, "a pair");
    assert!(rt; key.as_bytes() == Some(b"ttl".as_slice()));
    assert!(rt; key.as_str() == Some("ttl"));
    assert!(rt; number.as_int() == Some(1));
    let list = root.described().expect(&rt, "a value");
    let truth = list.elements().next().expect(&rt, "an element");
    assert!(rt; truth.as_bool() == Some(true));
    took_none(&rt);
}

#[test]
fn tokens_one_after_another(rt: HostRuntime) {
    let token = Token {
        kind: TokenKind::Int,
        size: 0,
        number: 7,
        start: 0,
    };
    refuse_all(rt.alloc());
    let list = [token];
    let mut tokens: &[Token] = &list;
    assert!(rt; token.may_stand());
    assert!(rt; tokens.next_token() == Some(token) && tokens.next_token().is_none());
    took_none(&rt);
}

/// The reply, in whatever form, is an array of a map from `a` to true.
fn has_parts<R: Reply>(rt: &impl Test, reply: R) {
    assert!(rt; reply.kind() == TokenKind::Array && reply.len() == 1);
    let mut elements = reply.into_elements().ok().expect(rt, "a list");
    let map = R::next_of(&mut elements).expect(rt, "an element");
    let mut pairs = map.into_pairs().ok().expect(rt, "a map");
    let (key, truth) = R::next_pair_of(&mut pairs).expect(rt, "a pair");
    assert!(rt; key.as_line() == Some(b"a".as_slice()) && key.as_int().is_none());
    assert!(rt; truth.as_bool() == Some(true));
}

#[test]
fn forms_of_replies(rt: HostRuntime) {
    let value: Value = reply(&rt, b"*1\r\n%1\r\n+a\r\n#t\r\n");
    let mut flat = FlatReply::new(rt.alloc());
    flat.append(&value).expect(&rt, "no refusal");
    refuse_all(rt.alloc());
    has_parts(&rt, flat.root().expect(&rt, "a token"));
    has_parts(&rt, &value);
    has_parts(&rt, value);
    took_none(&rt);
}

/// Limits below the usual ones.
const LIMITS: Limits = Limits {
    depth: 3,
    bytes: 9,
    pushes: 9,
};

#[test]
fn new_parsers(rt: HostRuntime) {
    refuse_all(rt.alloc());
    assert!(rt; !Parser::new(rt.alloc()).in_progress());
    assert!(rt; is_ok(Parser::with_limits(rt.alloc(), LIMITS)));
    assert!(rt; is_ok(Parser::with_depth_limit(rt.alloc(), 3)));
    let flat = FlatParser::new(rt.alloc());
    assert!(rt; !flat.in_progress() && !flat.is_failed() && flat.fault_offset().is_none());
    assert!(rt; flat.unparsed_len() == 0 && flat.limits() == Limits::default());
    assert!(rt; is_ok(FlatParser::with_limits(rt.alloc(), LIMITS)));
    took_none(&rt);
}

#[test]
fn sources(rt: HostRuntime) {
    refuse_all(rt.alloc());
    let mut source = Reading::new(b"+OK\r\n".as_slice());
    equal(&rt, source.fill(&mut [0; 9]), Ok(5));
    equal(&rt, source.into_inner().len(), 0);
    took_none(&rt);
}

#[test]
fn sinks(rt: HostRuntime) {
    let room = Vec::with_capacity(rt.alloc(), 9).expect(&rt, "no refusal");
    refuse_all(rt.alloc());
    let mut sink = Writing::new(room);
    equal(&rt, CommandSink::send(&mut sink, b"abc"), Ok(3));
    equal(&rt, sink.flush(), Ok(()));
    equal(&rt, sink.into_inner().len(), 3);
    took_none(&rt);
}

/// A link that has set a push aside.
fn pushed(rt: &impl Test) -> Link {
    let mut con = link(rt, b">1\r\n+own\r\n:1\r\n");
    let _reply: i64 = get(rt).query(&mut con).expect(rt, "no refusal");
    con
}

/// Whether the link is usable, and has set a push aside.
fn is_pushed(con: &Link) -> bool {
    !con.is_broken() && con.is_open() && con.supports_pipelining() && con.pushes().len() == 1
}

#[test]
fn links(rt: HostRuntime) {
    let mut con = pushed(&rt);
    refuse_all(rt.alloc());
    assert!(rt; is_pushed(&con));
    assert!(rt; con.limits() == Limits::default() && con.depth_limit() == 100);
    equal(&rt, con.take_pushes().len(), 1);
    took_none(&rt);
}

#[test]
fn next_pushes(rt: HostRuntime) {
    let mut con = pushed(&rt);
    refuse_all(rt.alloc());
    let push = con.next_push().expect(&rt, "a push");
    equal(&rt, push.payload.len(), 0);
    assert!(rt; con.pushes().is_empty());
    took_none(&rt);
}

#[test]
fn ends_of_links(rt: HostRuntime) {
    let con = link(&rt, b"");
    refuse_all(rt.alloc());
    let (source, sink) = con.into_ends();
    let _link = ByteLink::over(rt.alloc(), source, sink);
    took_none(&rt);
}

/// Nothing comes in.
const NOTHING: &[u8] = b"";

#[test]
fn new_links(rt: HostRuntime) {
    let alloc = rt.alloc();
    refuse_all(alloc);
    let _link = ByteLink::new(alloc, NOTHING, Vec::new(alloc));
    let limited = ByteLink::with_limits(alloc, NOTHING, Vec::new(alloc), LIMITS);
    assert!(rt; is_ok(limited));
    let limited = ByteLink::with_depth_limit(alloc, NOTHING, Vec::new(alloc), 3);
    assert!(rt; is_ok(limited));
    took_none(&rt);
}

/// Ends of a link.
fn ends(alloc: Global) -> (Reading<&'static [u8]>, Writing<Vec<u8>>) {
    (Reading::new(NOTHING), Writing::new(Vec::new(alloc)))
}

#[test]
fn new_links_over_ends(rt: HostRuntime) {
    let alloc = rt.alloc();
    refuse_all(alloc);
    let (source, sink) = ends(alloc);
    let limited = ByteLink::over_with_limits(alloc, source, sink, LIMITS);
    assert!(rt; is_ok(limited));
    let (source, sink) = ends(alloc);
    let limited = ByteLink::over_with_depth_limit(alloc, source, sink, 3);
    assert!(rt; is_ok(limited));
    took_none(&rt);
}

#[test]
fn maps(rt: HostRuntime) {
    let map: Value = reply(&rt, b"%1\r\n+a\r\n:1\r\n");
    refuse_all(rt.alloc());
    assert!(rt; !map.looks_like_cursor() && map.as_map_iter().is_some());
    assert!(rt; is_ok(map.into_map_iter()));
    took_none(&rt);
}

#[test]
fn sequences(rt: HostRuntime) {
    let list: Value = reply(&rt, b"*2\r\n+a\r\n:1\r\n");
    refuse_all(rt.alloc());
    assert!(rt; list.as_sequence().is_some());
    assert!(rt; is_ok(list.into_sequence(rt.alloc())));
    assert!(rt; is_ok(Value::Nil.into_sequence(rt.alloc())));
    took_none(&rt);
}

#[test]
fn values_with_errors(rt: HostRuntime) {
    let error: Value = reply(&rt, b"*1\r\n-MINE x\r\n");
    refuse_all(rt.alloc());
    assert!(rt; !is_ok(error.extract_error()));
    took_none(&rt);
}

/// Whether it is, and lets it go.
pub fn is_ok<T: Drop, E: Drop>(answer: Result<T, E>) -> bool {
    answer.is_ok()
}

#[test]
fn numbers(rt: HostRuntime) {
    let alloc = rt.alloc();
    let number: Value = reply(&rt, b"$2\r\n42\r\n");
    refuse_all(alloc);
    equal(&rt, i64::from_redis_value_ref(alloc, &number), Ok(42));
    equal(&rt, from_redis_value_ref(alloc, &number), Ok(42u8));
    equal(&rt, u8::from_redis_value(alloc, number), Ok(42));
    took_none(&rt);
}

#[test]
fn truth_values(rt: HostRuntime) {
    let alloc = rt.alloc();
    let text: Value = reply(&rt, b"|1\r\n+k\r\n:1\r\n+1\r\n");
    refuse_all(alloc);
    equal(&rt, from_redis_value_ref(alloc, &text), Ok(true));
    equal(&rt, bool::from_redis_value_ref(alloc, &text), Ok(true));
    equal(&rt, bool::from_redis_value(alloc, text), Ok(true));
    took_none(&rt);
}

/// A borrowed list is read where it stands.
#[test]
fn borrowed_pairs(rt: HostRuntime) {
    let value: Value = reply(&rt, b"*2\r\n:1\r\n:2\r\n");
    refuse_all(rt.alloc());
    equal(&rt, from_redis_value_ref(rt.alloc(), &value), Ok((1, 2)));
    took_none(&rt);
}

#[test]
fn integer_replies(rt: HostRuntime) {
    refuse_all(rt.alloc());
    let reply = IntegerReplyOrNoOp::from_redis_value(rt.alloc(), Value::Int(-2));
    let no_op = reply.expect(&rt, "no refusal");
    assert!(rt; no_op.raw() == Some(-2) && no_op.eq_isize(-2) && no_op.eq_i32(-2));
    assert!(rt; !no_op.eq_usize(2) && !no_op.eq_u32(2));
    took_none(&rt);
}

#[test]
fn names(rt: HostRuntime) {
    let (kind, format) = (text(&rt, "message"), text(&rt, "own"));
    refuse_all(rt.alloc());
    equal(&rt, get_push_kind(kind).name(), "message");
    equal(&rt, PushKind::Message.name(), "message");
    let format: VerbatimFormat = verbatim_format(format);
    equal(&rt, format.name(), "own");
    took_none(&rt);
}

#[test]
fn names_of_types(rt: HostRuntime) {
    let of_a_value: ValueType = reply(&rt, b"+xyz\r\n");
    refuse_all(rt.alloc());
    equal(&rt, of_a_value.name(), "xyz");
    took_none(&rt);
}

#[test]
fn dictionaries(rt: HostRuntime) {
    let info: InfoDict = reply(&rt, b"$6\r\nrole:m\r\n");
    refuse_all(rt.alloc());
    assert!(rt; info.find(&"role").is_some() && info.contains_key(&"role"));
    assert!(rt; info.len() == 1 && !info.is_empty() && info.as_map().len() == 1);
    took_none(&rt);
}

#[test]
fn fields(rt: HostRuntime) {
    let entries = BTreeMap::new(rt.alloc());
    refuse_all(rt.alloc());
    let fields = Fields::from(entries);
    assert!(rt; fields.is_empty() && fields.len() == 0);
    took_none(&rt);
}

#[test]
fn texts_of_doubles(rt: HostRuntime) {
    refuse_all(rt.alloc());
    assert!(rt; is_double_text("-1.5e7") && !is_double_text("1.5 "));
    took_none(&rt);
}

#[test]
fn doubles(rt: HostRuntime) {
    let double: DoubleText = reply(&rt, b",1.5\r\n");
    refuse_all(rt.alloc());
    assert!(rt; double.as_str() == "1.5" && double.into_text().eq_str("1.5"));
    took_none(&rt);
}

#[test]
fn values_in_a_line(rt: HostRuntime) {
    let bytes = Vec::<u8>::of_size(&rt, 2);
    let values: Vec<Value> = Vec::new(rt.alloc());
    refuse_all(rt.alloc());
    let (number, bytes, list) = (Value::from(7), Value::from(bytes), Value::from(values));
    equal(&rt, number, Value::Int(7));
    assert!(rt; !bytes.looks_like_cursor() && !list.looks_like_cursor());
    took_none(&rt);
}

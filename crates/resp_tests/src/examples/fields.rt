//! Replies of several orders and forms as structs of fields, and refused ones.

use crate::checks::{Test, link, reply};
use example_snippets::fields::{Account, Path, Point, account_of};
use resp_core::{Fields, FromRedisValue, ParsingError, RedisResult, from_redis_value};

const ADA: &str = "*12\r\n$4\r\nname\r\n$3\r\nAda\r\n$3\r\nage\r\n$2\r\n36\r\n$5\r\nmotto\r\n\
$4\r\ncalc\r\n$6\r\nvisits\r\n$1\r\n7\r\n$6\r\nactive\r\n$1\r\n1\r\n$4\r\ncity\r\n$4\r\nRome\r\n";

/// The same fields in another order, as a map with an attribute, and one field more.
const ADA_AS_A_MAP: &str = "|1\r\n+ttl\r\n:60\r\n%7\r\n+city\r\n+Rome\r\n+active\r\n#t\r\n\
+visits\r\n:7\r\n+born\r\n:1815\r\n+age\r\n:36\r\n+motto\r\n+calc\r\n+name\r\n+Ada\r\n";

fn read<T: FromRedisValue>(rt: &impl Test, bytes: &str) -> Result<T, ParsingError> {
    from_redis_value(rt.alloc(), reply(rt, bytes.as_bytes()))
}

/// The reply is refused, for this reason.
fn refuses<T: FromRedisValue>(rt: &impl Test, bytes: &str, why: &str) -> bool {
    match read::<T>(rt, bytes) {
        Ok(_) => false,
        Err(error) => error.description() == why,
    }
}

fn is_ada(account: &Account) -> bool {
    account.name.as_str() == "Ada"
        && account.age == 36
        && account.motto.as_str() == "calc"
        && account.visits == 7
        && account.active
        && lives_in(account, "Rome")
}

fn lives_in(account: &Account, place: &str) -> bool {
    match &account.city {
        Some(city) => city.as_str() == place,
        None => false,
    }
}

#[test]
fn the_order_of_a_reply_makes_no_difference(rt: HostRuntime) {
    assert!(rt; is_ada(&read::<Account>(&rt, ADA).expect(&rt, "an account")));
    assert!(rt; is_ada(&read::<Account>(&rt, ADA_AS_A_MAP).expect(&rt, "an account")));
}

#[test]
fn an_optional_field_may_be_absent(rt: HostRuntime) {
    let reply =
        "*10\r\n+name\r\n+B\r\n+age\r\n:2\r\n+motto\r\n+m\r\n+visits\r\n:0\r\n+active\r\n:0\r\n";
    let account = read::<Account>(&rt, reply).expect(&rt, "an account");
    assert!(rt; account.city.is_none() && !account.active);
}

#[test]
fn a_missing_field_and_a_wrong_one_are_refused(rt: HostRuntime) {
    assert!(rt; refuses::<Account>(&rt, "*0\r\n", "field name: it is missing"));
    let of_ada = "*2\r\n+name\r\n+Ada\r\n";
    assert!(rt; refuses::<Account>(&rt, of_ada, "field age: it is missing"));
    assert!(rt; refuses::<Account>(&rt, "+OK\r\n", "Response type not hashmap compatible"));
    let wrong =
        "*10\r\n+name\r\n+B\r\n+age\r\n:-1\r\n+motto\r\n+m\r\n+visits\r\n:0\r\n+active\r\n:0\r\n";
    assert!(rt; refuses::<Account>(&rt, wrong, "Number out of range"));
}

#[test]
fn a_struct_may_refuse_other_fields(rt: HostRuntime) {
    let point = read::<Point>(&rt, "*4\r\n+y\r\n:-4\r\n+x\r\n:3\r\n").expect(&rt, "a point");
    assert!(rt; point == Point { x: 3, y: -4 });
    let wide = "*6\r\n+y\r\n:-4\r\n+x\r\n:3\r\n+z\r\n:1\r\n";
    assert!(rt; refuses::<Point>(&rt, wide, "unknown field"));
    assert!(rt; refuses::<Point>(&rt, "%1\r\n+x\r\n:3\r\n", "field y: it is missing"));
    let word = "%2\r\n+x\r\n:3\r\n+y\r\n+a\r\n";
    assert!(rt; refuses::<Point>(&rt, word, "field y: Could not convert from string."));
    assert!(rt; matches!(read::<Option<Point>>(&rt, "_\r\n"), Ok(None)));
}

#[test]
fn structs_stand_in_lists_of_others(rt: HostRuntime) {
    let reply =
        "%2\r\n+points\r\n*2\r\n%2\r\n+x\r\n:1\r\n+y\r\n:2\r\n%2\r\n+y\r\n:4\r\n+x\r\n:3\r\n\
+name\r\n+hill\r\n";
    let path = read::<Path>(&rt, reply).expect(&rt, "a path");
    let points = [Point { x: 1, y: 2 }, Point { x: 3, y: 4 }];
    assert!(rt; path.name.as_str() == "hill" && path.start.is_none());
    assert!(rt; path.points.as_slice() == points.as_slice());
    let short = "%2\r\n+points\r\n*1\r\n%1\r\n+x\r\n:1\r\n+name\r\n+hill\r\n";
    assert!(rt; refuses::<Path>(&rt, short, "field y: it is missing"));
}

#[test]
fn fields_are_taken_once(rt: HostRuntime) {
    let reply = "*6\r\n+a\r\n:1\r\n+b\r\n:2\r\n+a\r\n:3\r\n";
    let mut fields = read::<Fields>(&rt, reply).expect(&rt, "fields");
    assert_eq!(rt; fields.len(), 2);
    assert!(rt; matches!(fields.take::<i64>(rt.alloc(), "a"), Ok(3)));
    assert!(rt; fields.take::<i64>(rt.alloc(), "a").is_err());
    assert!(rt; matches!(fields.take_or::<i64>(rt.alloc(), "b", 0), Ok(2)));
    assert!(rt; matches!(fields.take_or::<i64>(rt.alloc(), "b", 0), Ok(0)));
    assert!(rt; fields.is_empty());
}

/// The account at a key of a server that sends these bytes.
fn account_over(rt: &impl Test, replies: &str) -> RedisResult<Account> {
    let mut link = link(rt, replies.as_bytes());
    account_of(rt.alloc(), &mut link, "user:1")
}

#[test]
fn hgetall_answers_a_struct(rt: HostRuntime) {
    assert!(rt; is_ada(&account_over(&rt, ADA).expect(&rt, "an account")));
    assert!(rt; account_over(&rt, "*0\r\n").is_err());
}

//! The clock, which stands still.

ghost use Rattle.std.specs.Prelude.{◌≡◌, ◌+ℤ◌, ◌*ℤ◌, pos};
ghost use Rattle.example_server.specs.Times.{now, is_past, Makes, MakesFromNow};

/// What the clock shows: milliseconds since 1970. No server's clock shows less.
const NOW: i64 = 1_700_000_000_000;

/// A time, in milliseconds since 1970.
pub type Time = i64;

/// Whether the time has come.
pub fn is_past(time: Time) -> bool
    ensures { result ≡ is_past time }
{
    time <= NOW
}

/// The time in so many milliseconds, if it is of 64 bits.
pub fn in_milliseconds(number: i64) -> Option<Time>
    ensures { Makes (number +ℤ now) result }
{
    number.checked_add(NOW)
}

/// The time in so many seconds, if it is of 64 bits.
pub fn in_seconds(number: i64) -> Option<Time>
    ensures { MakesFromNow number result }
{
    in_milliseconds(at_second(number)?)
}

/// So many seconds after 1970, if it is of 64 bits.
pub fn at_second(number: i64) -> Option<Time>
    ensures { Makes (number *ℤ pos 1000) result }
{
    number.checked_mul(1000)
}

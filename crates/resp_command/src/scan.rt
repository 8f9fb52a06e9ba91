//! Scans: commands that take a cursor, and answer a list and the next cursor.

ghost use Rattle.std.specs.Prelude.{◌≡◌};
ghost use Rattle.resp_command.specs.ScanStates.{borrowed};

use crate::connection::ConnectionLike;
use crate::progress::ScanProgress;
use resp_from::FromRedisValue;
use resp_value::RedisResult;

/// A scan over a connection, which it borrows; made by [`Cmd::iter`](crate::Cmd::iter).
///
/// It answers what the latest reply held, item by item, and then sends the command again with the
/// cursor that it was given, until that is 0. An answer is the value of an item of a reply, or a
/// refusal: of an item that is no value of the type; of a request that failed; or of a reply that
/// isn't a cursor and a list. After the last two the same cursor is sent again. Each request after
/// the first spends one of the budget; where none is left and the cursor isn't 0, one refusal of
/// kind `Client` comes, `scan budget used up`. Once `None` came, nothing else does.
///
/// Where memory runs out for the items of a reply, they are lost: one `OutOfMemory` is answered in
/// their place, and the cursor of that reply is sent next. Reading that cursor takes no memory; so
/// only where memory runs out before there is a reply, as the request is packed or over the
/// exchange, the same cursor is sent again.
pub struct Scan<'a, C, P> {
    con: &'a mut C,
    progress: P,
}

/// A scan for values of type `T` over a connection of type `C`.
pub type Iter<'a, T, C> = Scan<'a, C, ScanProgress<T>>;

impl<'a, C, P> Scan<'a, C, P> {
    pub(crate) fn over(con: &'a mut C, progress: P) -> Scan<'a, C, P>
        ensures same_connection { (borrowed result).ghost_name ≡ con.entry.ghost_name }
        ensures unchanged { (borrowed result).now ≡ con.old }
        ensures progress { result.progress ≡ progress }
    {
        Scan { con, progress }
    }
}

impl<'a, C, P: Drop> Drop for Scan<'a, C, P> {
    /// Gives the connection back as it is.
    fn drop(self)
        ensures { self.exit.0.now ≡ self.entry.con.now }
    {
        let Scan {
            con: _,
            progress: _,
        } = self;
    }
}

impl<'a, T: FromRedisValue, C: ConnectionLike> Iterator for Scan<'a, C, ScanProgress<T>> {
    ghost use Rattle.resp_command.specs.ScanStates.{ScanSteps, scan_count};

    type Item = RedisResult<T>;

    ghost next_gives = { ScanSteps T.WIDTH T.of_value C.connection };

    ghost remaining = { scan_count };

    fn next(&mut self) -> Option<RedisResult<T>> {
        self.progress.next(self.con)
    }
}

//! The tokens of a flat reply.

ghost use Rattle.std.specs.Prelude.{◌≡◌, ◌+◌};

/// Which value a token stands for. Its number, from 0, is that of its place here.
#[repr(u8)]
#[derive(Clone, Copy, PartialEq, Eq, Debug)]
pub enum TokenKind {
    /// Nothing: a null, or a bulk string or an aggregate of negative length.
    Nil,
    /// The simple string `OK`.
    Okay,
    /// An integer, which is the token's number.
    Int,
    /// A line of text.
    SimpleString,
    /// Any bytes.
    BulkString,
    /// A list: as many values follow as its size says.
    Array,
    /// A map: as many pairs follow, each a key and then a value (RESP3).
    Map,
    /// An attribute: as many pairs follow, and then the value that they describe (RESP3).
    Attribute,
    /// An error: its text is the code, and where there is a detail a space and the detail.
    ServerError,
    /// A truth value, whose number is 1 for true and 0 for false (RESP3).
    Boolean,
    /// A floating point number, as the text that the server sent without white space around it
    /// (RESP3).
    Double,
    /// An integer of any size, as the bytes that the server sent (RESP3).
    BigNumber,
    /// A list of values without an order: as many follow (RESP3).
    Set,
    /// A text for display: its text is the format, a colon and the text (RESP3).
    VerbatimString,
    /// Out-of-band data: as many values follow, the first of which is the name of its kind, a bulk
    /// string (RESP3).
    Push,
}

impl TokenKind {
    ghost use Rattle.resp_flat.specs.FlatReplies.{has_text};

    /// Whether a value of this kind has text: its size then counts bytes.
    pub fn has_text(self) -> bool
        ensures { result ≡ has_text self }
    {
        matches!(
            self,
            TokenKind::SimpleString
                | TokenKind::BulkString
                | TokenKind::ServerError
                | TokenKind::Double
                | TokenKind::BigNumber
                | TokenKind::VerbatimString
        )
    }
}

/// A value of a flat reply, before those inside it.
#[repr(C)]
#[derive(Debug, Clone, Copy, PartialEq, Eq)]
pub struct Token {
    /// Which value it is.
    pub kind: TokenKind,
    /// How many bytes its text has, or how many values or pairs follow; 0 where it has neither.
    pub size: usize,
    /// The integer, or 1 for true; 0 of any other kind.
    pub number: i64,
    /// Where in the reply's text its bytes begin, or those of the values inside it.
    pub start: usize,
}

impl Token {
    ghost use Rattle.resp_flat.specs.Reading.{may_have};
    ghost use Rattle.resp_flat.specs.FlatValues.{int_at, truth_at, is_attribute};
    ghost use Rattle.resp_flat.specs.FlatValues.{element_count, pair_count};

    /// Whether a token of its kind may have its size and its number: a kind with text has no number,
    /// and a push has at least the name of its kind.
    pub fn may_stand(&self) -> bool
        ensures { result ≡ may_have self.now.kind self.now.size self.now.number }
    {
        match self.kind {
            TokenKind::Nil | TokenKind::Okay => self.size == 0 && self.number == 0,
            TokenKind::Int => self.size == 0,
            TokenKind::Boolean => self.size == 0 && (self.number == 0 || self.number == 1),
            TokenKind::Push => self.size != 0 && self.number == 0,
            _ => self.number == 0,
        }
    }

    /// The integer, if it is one.
    pub(crate) fn int(&self) -> Option<i64>
        ensures { result ≡ int_at self.now.kind self.now.number }
    {
        match self.kind {
            TokenKind::Int => Some(self.number),
            _ => None,
        }
    }

    /// The truth value, if it is one.
    pub(crate) fn truth(&self) -> Option<bool>
        ensures { result ≡ truth_at self.now.kind self.now.number }
    {
        match self.kind {
            TokenKind::Boolean => Some(self.number == 1),
            _ => None,
        }
    }

    /// How many elements its value has.
    pub(crate) fn element_count(&self) -> usize
        ensures { result ≡ element_count self.now.kind self.now.size }
    {
        match self.kind {
            TokenKind::Array | TokenKind::Set | TokenKind::Push => self.size,
            _ => 0,
        }
    }

    /// How many pairs its value has.
    pub(crate) fn pair_count(&self) -> usize
        ensures { result ≡ pair_count self.now.kind self.now.size }
    {
        match self.kind {
            TokenKind::Map | TokenKind::Attribute => self.size,
            _ => 0,
        }
    }

    /// How many elements or pairs its value has.
    pub(crate) fn count(&self) -> usize
        ensures { result ≡ element_count self.now.kind self.now.size
            + pair_count self.now.kind self.now.size }
    {
        match self.kind {
            TokenKind::Array
            | TokenKind::Set
            | TokenKind::Push
            | TokenKind::Map
            | TokenKind::Attribute => self.size,
            _ => 0,
        }
    }

    /// Whether it is an attribute.
    pub(crate) fn is_attribute(&self) -> bool
        ensures { result ≡ is_attribute self.now.kind }
    {
        matches!(self.kind, TokenKind::Attribute)
    }
}

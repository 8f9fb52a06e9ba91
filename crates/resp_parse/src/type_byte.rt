//! The types of values.

ghost use Rattle.std.specs.Prelude.{◌≡◌};
ghost use Rattle.resp_parse.specs.TypeBytes.{type_of};

/// The type of a value, which its first byte says (RESP, "RESP protocol description").
#[derive(Clone, Copy, Debug)]
pub enum TypeByte {
    SimpleString,
    SimpleError,
    Integer,
    BulkString,
    Array,
    Null,
    Boolean,
    Double,
    BigNumber,
    BulkError,
    VerbatimString,
    Map,
    Attribute,
    Set,
    Push,
}

impl TypeByte {
    /// The type of a byte, if it is one's.
    #[inline(always)]
    #[tactic(auto, unfolding(crate::specs::TypeBytes::type_of))]
    pub(crate) fn from_byte(byte: u8) -> Option<TypeByte>
        ensures kind { result ≡ type_of byte }
    {
        match byte {
            b'+' => Some(TypeByte::SimpleString),
            b'-' => Some(TypeByte::SimpleError),
            b':' => Some(TypeByte::Integer),
            b'$' => Some(TypeByte::BulkString),
            b'*' => Some(TypeByte::Array),
            b'_' => Some(TypeByte::Null),
            b'#' => Some(TypeByte::Boolean),
            b',' => Some(TypeByte::Double),
            b'(' => Some(TypeByte::BigNumber),
            b'!' => Some(TypeByte::BulkError),
            b'=' => Some(TypeByte::VerbatimString),
            b'%' => Some(TypeByte::Map),
            b'|' => Some(TypeByte::Attribute),
            b'~' => Some(TypeByte::Set),
            b'>' => Some(TypeByte::Push),
            _ => None,
        }
    }
}

//! The laws of what is sent: functions that do nothing, and whose clauses are proved.

ghost use Rattle.std.specs.Prelude.{◌≡◌, ℕ, List, Some};
ghost use Rattle.resp_value.specs.declared.value.Value.{Value};
ghost use Rattle.resp_encode.specs.Encoding.{LawOfEncoding};
ghost use Rattle.resp_encode.specs.FlatLaw.{LawOfFlatReplies};
ghost use Rattle.resp_encode.specs.Encodings.{encoding_in};
ghost use Rattle.resp_encode.specs.FlatEncoding.{flat_encoding, SendsReply};
ghost use Rattle.resp_args.specs.declared.options.ProtocolVersion.{ProtocolVersion};
ghost use Rattle.resp_flat.specs.declared.token.Token.{Token};
ghost use Rattle.resp_flat.specs.FlatReplies.{placed, tokens_of, text_of};
ghost use Rattle.resp_flat.specs.Readable.{IsReadable};
ghost use Rattle.resp_parse.specs.Grammar.{WellFormed};
ghost use Rattle.resp_encode.specs.Resp2.{resp2_of, IsResp2};
ghost use Rattle.resp_encode.specs.Resp2Encoding.{LawOfResp2Encoding};

/// The RESP2 form of a value.
///
/// It and all in it are of RESP2's types, whatever the value; and a value of RESP2's types is its
/// own form. So the form of a form is that form.
pub fn law_of_resp2()
    ensures typed { (v : Value) → IsResp2 (resp2_of v) }
    ensures unchanged { (v : Value) → IsResp2 v → resp2_of v ≡ v }
    ensures idempotent { (v : Value) → resp2_of (resp2_of v) ≡ resp2_of v }
{}

/// What is sent for a value is read as that value, and as nothing else; and where nothing is, no
/// bytes spell the value.
///
/// The last holds of values whose errors and verbatim strings have texts of up to 2^63 - 1 bytes.
pub fn law_of_encoding()
    ensures law { (d : ℕ) (v : Value) → LawOfEncoding d v }
{}

/// What is sent for a value in RESP2 is read as the value's RESP2 form, and as nothing else; and it
/// begins with one of the five type bytes of RESP2.
pub fn law_of_resp2_encoding()
    ensures law { (d : ℕ) (v : Value) → LawOfResp2Encoding d v }
{}

/// What is sent for the tokens and the text of a value, as
/// [`encode_tokens`](crate::encode_tokens) does, is what is sent for the value; and where something
/// is sent, the tokens and the text are a value's.
pub fn law_of_flat_encoding()
    ensures value { (p : ProtocolVersion) (d : ℕ) (ts : List Token) (x : List ℕ) (v : Value) →
        ts ≡ placed 0 (tokens_of v) → x ≡ text_of v → IsReadable d v →
        flat_encoding p d ts x ≡ encoding_in p d v }
    ensures only { (p : ProtocolVersion) (d : ℕ) (ts : List Token) (x bytes : List ℕ) →
        flat_encoding p d ts x ≡ Some bytes → SendsReply p d ts x bytes }
{}

/// The tokens and the text of a flat reply are those of one value, of all that a server can send.
///
/// And what bytes spell at so many levels is read back from them
/// ([`FlatReply::to_value`](resp_flat::FlatReply::to_value)).
pub fn law_of_flat_replies()
    ensures law { (d : ℕ) (v w : Value) → LawOfFlatReplies d v w }
    ensures readable { (d : ℕ) (b : List ℕ) (v : Value) → WellFormed d b v → IsReadable d v }
{}

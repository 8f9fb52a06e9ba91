//! The query of a URL.

ghost use Rattle.std.specs.Prelude.{◌≡◌, ◌∷◌, ◌++◌, [], IfOk, OnOk};
ghost use Rattle.std.specs.List.{list_all};
ghost use Rattle.std.specs.Option.{option_copied};
ghost use Rattle.resp_connect.specs.Answers.{Reads};
ghost use Rattle.resp_connect.specs.Queries.{form_text, pair_text, pairs_of, parameters, takes};
ghost use Rattle.resp_connect.specs.Queries.{value_of};

use crate::address::refusal::Refusal;
use crate::address::transport::Transport;
use form_urlencoded::{decode, raw_pairs};
use resp_containers::{Items, Text};
use std::alloc::{AllocError, Global};
use url::Url;

/// The pairs of a URL's query, decoded.
pub(crate) type Pairs = Items<(Text, Text)>;

/// The parameters of a URL, all of them known.
pub(crate) fn parameters(alloc: Global, transport: Transport, url: &Url) -> Result<Pairs, Refusal>
    ensures { Reads (parameters transport url.now) result }
{
    if url.fragment().is_some() {
        return Err(Refusal::Fragment);
    }
    let pairs = pairs_of(alloc, url)?;
    if !are_known(transport, &pairs) {
        return Err(Refusal::Parameter);
    }
    Ok(pairs)
}

fn pairs_of(alloc: Global, url: &Url) -> Result<Pairs, AllocError>
    ensures { IfOk result (λ pairs. pairs ≡ pairs_of url.now) }
{
    let mut pairs = Items::new(alloc);
    for (name, value) in raw_pairs(url.query().unwrap_or("").as_bytes()) {
        push_pair(alloc, &mut pairs, name, value)?;
    }
    Ok(pairs)
}

fn push_pair(alloc: Global, pairs: &mut Pairs, name: &[u8], value: &[u8]) -> Result<(), AllocError>
    ensures { OnOk result (pairs.new ≡ pairs.old ++ pair_text (name.now, value.now) ∷ []) }
{
    let name = form_text(alloc, name)?;
    pairs.push((name, form_text(alloc, value)?))
}

#[tactic(auto, unfolding(crate::specs::Queries::form_text))]
fn form_text(alloc: Global, bytes: &[u8]) -> Result<Text, AllocError>
    ensures { IfOk result (λ text. text ≡ form_text bytes.now) }
{
    Text::from_str(alloc, decode(alloc, bytes)?.as_str())
}

fn are_known(transport: Transport, pairs: &Pairs) -> bool
    ensures { result ≡ list_all (λ pair. takes transport pair.0) pairs.now }
{
    for (name, _) in pairs.as_slice() {
        if !transport.takes(name.as_str()) {
            return false;
        }
    }
    true
}

/// The value of the last pair of this name.
pub(crate) fn value_of<'a>(name: &str, pairs: &'a Pairs) -> Option<&'a str>
    ensures { option_copied result ≡ value_of name.now pairs.now }
{
    let mut found = None;
    for (other, value) in pairs.as_slice() {
        if other.eq_str(name) {
            found = Some(value.as_str());
        }
    }
    found
}

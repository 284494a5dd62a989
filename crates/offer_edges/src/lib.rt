//! A theorem over the definitions that the contract of an offer cites. The answer says nothing; the contract does.

#![tactic(auto)]

ghost use Rattle.offer_edges.specs.Edges.{OfferEdges};

use authenticator::Authenticator;

/// Each edge of the rules of an offer stands.
pub fn offer_edges_stand<K: Authenticator>() -> u8
    ensures { (key : K.means.Key) → OfferEdges K.means key }
{
    0
}

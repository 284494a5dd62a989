//! The law of a board's lifecycle, over every history that the meaning of its calls allows.

#![tactic(auto)]

ghost use Rattle.law.specs.GoesOn.{GoesOn};
ghost use Rattle.law.specs.Law.{Law};

use authenticator::Authenticator;

/// The law holds for every key of the authenticator, and is not empty. The answer says nothing; the contract does.
pub fn law_stands<K: Authenticator>() -> u8
    ensures law { (key : K.means.Key) → Law K.means key }
    ensures open { (key : K.means.Key) → GoesOn K.means key }
{
    0
}

ghost use Rattle.nj_core.specs.Laws.{AClaimTakesTheLesser, AnyOrderIsOneThread, ByNumberIsRising, LeastIsTheLeast, OwnedClaimsAreFirst, OwnedIsFirst};

/// After a claim its key is owned by the lesser of the owner before, if any, and its number.
pub fn a_claim_takes_the_lesser()
    ensures { AClaimTakesTheLesser }
{}

/// The least of an opening owner and numbers is one of them, and above none, and so does not depend on their order.
pub fn least_is_the_least()
    ensures { LeastIsTheLeast }
{}

/// Claims by rising number are the same claims, and their numbers do not fall.
pub fn by_number_is_rising()
    ensures { ByNumberIsRising }
{}

/// Where each owner is the least, a claim's key is owned by its number exactly where it is the first of a new key.
pub fn owned_is_first()
    ensures { OwnedIsFirst }
{}

/// Where each owner is the least, the claims whose key is owned by their number are the first ones of new keys.
pub fn owned_claims_are_first()
    ensures { OwnedClaimsAreFirst }
{}

/// Every order of events ends as one thread would.
pub fn any_order_is_one_thread()
    ensures { AnyOrderIsOneThread }
{}

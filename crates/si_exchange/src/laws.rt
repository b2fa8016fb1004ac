// What independence is good for, for those who build on it.

ghost use Rattle.si_exchange.specs.Independence.{MayExchange};
ghost use Rattle.si_exchange.specs.LegalHistories.{MayExchangeLegal};

/// Independent neighbours of a history may be exchanged: each call of it is enabled at its point and answered as before, the
/// state left is the same, and each interpreter made the same calls in the same order.
pub fn may_exchange()
    ensures { MayExchange }
{}

/// Independent neighbours of a legal history may be exchanged: the history stays legal, each call of it being asked by the
/// life of its caller, enabled at its point and answered as the table says; the state left is the same; and each interpreter
/// made the same calls in the same order, and was answered the same.
pub fn may_exchange_legal()
    ensures { MayExchangeLegal }
{}

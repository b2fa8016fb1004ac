// Independent calls.

ghost use Rattle.std.specs.Prelude.{◌≡◌, ◌↔◌, IsTrue};
ghost use Rattle.si_parcel.specs.Shared.{action_of};
ghost use Rattle.si_exchange.specs.Independence.{queue_of, IsSize, AreTwo, AreApart, Independent};

use si_hub::Call;
use si_parcel::Action;

// The queue that an action is done on.
fn queue_number(action: &Action) -> Option<u32>
    ensures { result ≡ queue_of (action_of action.now) }
{
    match action {
        Action::Put(queue, _) => Some(*queue),
        Action::PutNow(queue, _) => Some(*queue),
        Action::Get(queue) => Some(*queue),
        Action::GetNow(queue) => Some(*queue),
        Action::Size(queue) => Some(*queue),
        _ => None,
    }
}

fn on_two_queues(first: &Action, second: &Action) -> bool
    ensures { IsTrue result ↔ AreTwo (queue_of (action_of first.now)) (queue_of (action_of second.now)) }
{
    match (queue_number(first), queue_number(second)) {
        (Some(queue), Some(other)) => queue != other,
        _ => false,
    }
}

fn both_sizes(first: &Action, second: &Action) -> bool
    ensures { IsTrue result ↔ (IsSize (action_of first.now) × IsSize (action_of second.now)) }
{
    matches!((first, second), (Action::Size(_), Action::Size(_)))
}

fn are_apart(first: &Action, second: &Action) -> bool
    ensures { IsTrue result ↔ AreApart (action_of first.now) (action_of second.now) }
{
    on_two_queues(first, second) || both_sizes(first, second)
}

/// Whether two calls are independent: of two interpreters, each a `Put`, `PutNow`, `Get`, `GetNow` or `Size`, on different
/// queues or both `Size`. Neighbours of which it is true may be exchanged (`laws::may_exchange`), and a legal history stays
/// legal so (`laws::may_exchange_legal`). It takes no memory. The rule is this project's own.
pub fn independent(first: &Call, second: &Call) -> bool
    ensures exact { IsTrue result ↔ Independent first.now second.now }
{
    first.by != second.by && are_apart(&first.action, &second.action)
}

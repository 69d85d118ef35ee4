// Where orders were obeyed, and where what follows on a failure came.
ghost use Rattle.run_rehearsal.specs.Fates.{are_obeyed, asked_back_at, asks_back, catches_up, first_told, is_back_obeyed, is_fall, is_obeyed, leads_in, obeyed_at, obeys};
ghost use Rattle.std.specs.Prelude.{◌≡◌, count_by, option_map};

use pair_machine::Order;
use run_watch::{Happening, Told};
use tuple_edge::NodeId;

// Whether a happening obeys an order: the order's own replica failed, or asked to be stopped, as the order says.
fn obeys(order: &Order, happening: &Happening) -> bool
    ensures { result ≡ obeys order.now happening.now }
{
    match *happening {
        Happening::Failed { node, .. } => order.kill && node == order.node,
        Happening::AskedStop { node, .. } => !order.kill && node == order.node,
        _ => false,
    }
}

// Whether a replica was asked back here.
fn asks_back(replica: NodeId, happening: &Happening) -> bool
    ensures { result ≡ asks_back replica happening.now }
{
    match *happening {
        Happening::AskedBack { node } => node == replica,
        _ => false,
    }
}

// Whether a replica failed here, or asked to be stopped.
fn is_fall(replica: NodeId, happening: &Happening) -> bool
    ensures { result ≡ is_fall replica happening.now }
{
    match *happening {
        Happening::Failed { node, .. } | Happening::AskedStop { node, .. } => node == replica,
        _ => false,
    }
}

// Whether a replica leads from here on, in this term.
fn leads_in(replica: NodeId, term: u64, happening: &Happening) -> bool
    ensures { result ≡ leads_in replica term happening.now }
{
    match *happening {
        Happening::Leads { node, term: risen } => node == replica && risen == term,
        _ => false,
    }
}

// Whether a replica has caught up here, in this incarnation.
fn catches_up(replica: NodeId, inc: u64, happening: &Happening) -> bool
    ensures { result ≡ catches_up replica inc happening.now }
{
    match *happening {
        Happening::CaughtUp { node, inc: own, .. } => node == replica && own == inc,
        _ => false,
    }
}

// Where an order was obeyed, if it ever was.
fn first_obeyed_at<'a>(told: &'a [Told], order: &Order) -> Option<&'a Told>
    ensures { option_map (λ t. t.now) result ≡ obeyed_at told.now order.now }
{
    told.iter()
        .find(|happened| obeys(order, &happened.happening))
}

/// The same, as a value.
pub(crate) fn obeyed_at(told: &[Told], order: &Order) -> Option<Told>
    ensures { result ≡ obeyed_at told.now order.now }
{
    first_obeyed_at(told, order).copied()
}

// Where a replica was asked back, if it ever was.
fn first_asked_back_at<'a>(told: &'a [Told], replica: NodeId) -> Option<&'a Told>
    ensures { option_map (λ t. t.now) result ≡ first_told (asks_back replica) told.now }
{
    told.iter()
        .find(|happened| asks_back(replica, &happened.happening))
}

/// The same, as a value.
pub(crate) fn asked_back_at(told: &[Told], replica: NodeId) -> Option<Told>
    ensures { result ≡ first_told (asks_back replica) told.now }
{
    first_asked_back_at(told, replica).copied()
}

// Where a replica fell, if it ever did.
fn first_fell_at<'a>(told: &'a [Told], replica: NodeId) -> Option<&'a Told>
    ensures { option_map (λ t. t.now) result ≡ first_told (is_fall replica) told.now }
{
    told.iter()
        .find(|happened| is_fall(replica, &happened.happening))
}

/// The same, as a value.
pub(crate) fn fell_at(told: &[Told], replica: NodeId) -> Option<Told>
    ensures { result ≡ first_told (is_fall replica) told.now }
{
    first_fell_at(told, replica).copied()
}

// From where on a replica leads in a term, if it ever does.
fn first_led_at<'a>(told: &'a [Told], replica: NodeId, term: u64) -> Option<&'a Told>
    ensures { option_map (λ t. t.now) result ≡ first_told (leads_in replica term) told.now }
{
    told.iter()
        .find(|happened| leads_in(replica, term, &happened.happening))
}

/// The same, as a value.
pub(crate) fn led_at(told: &[Told], replica: NodeId, term: u64) -> Option<Told>
    ensures { result ≡ first_told (leads_in replica term) told.now }
{
    first_led_at(told, replica, term).copied()
}

// Where a replica has caught up in an incarnation, if it ever has.
fn first_caught_up_at<'a>(told: &'a [Told], replica: NodeId, inc: u64) -> Option<&'a Told>
    ensures { option_map (λ t. t.now) result ≡ first_told (catches_up replica inc) told.now }
{
    told.iter()
        .find(|happened| catches_up(replica, inc, &happened.happening))
}

/// The same, as a value.
pub(crate) fn caught_up_at(told: &[Told], replica: NodeId, inc: u64) -> Option<Told>
    ensures { result ≡ first_told (catches_up replica inc) told.now }
{
    first_caught_up_at(told, replica, inc).copied()
}

// Whether what an order says of the way back was obeyed; one that says nothing of it is.
fn is_back_obeyed(told: &[Told], replica: NodeId, back: Option<u64>) -> bool
    ensures { result ≡ is_back_obeyed told.now replica back }
{
    match back {
        None => true,
        Some(_) => asked_back_at(told, replica).is_some(),
    }
}

// Whether an order was obeyed, and what it says of the way back too.
fn is_obeyed(told: &[Told], order: &Order) -> bool
    ensures { result ≡ is_obeyed told.now order.now }
{
    obeyed_at(told, order).is_some() && is_back_obeyed(told, order.node, order.back)
}

/// Whether every order was obeyed, and where it says a way back that too, by what is told of a run.
pub fn are_obeyed(told: &[Told], orders: &[Order]) -> bool
    ensures { result ≡ are_obeyed told.now orders.now }
{
    orders.iter().all(|order| is_obeyed(told, order))
}

/// How many orders were obeyed.
pub(crate) fn count_obeyed(told: &[Told], orders: &[Order]) -> usize
    ensures { result ≡ count_by (is_obeyed told.now) orders.now }
{
    let mut count = 0;
    for order in orders {
        if is_obeyed(told, order) {
            count += 1;
        }
    }
    count
}

// The warnings of a failure script.
ghost use Rattle.std.specs.Prelude.{◌≡◌, ◌++◌, flat_map, OnOk};
ghost use Rattle.plan_check.specs.Warnings.{alone_warnings, back_warnings, is_down_at, is_down_beside, script_warnings, stop_warnings, two_warnings};

use crate::plan_warnings::push_if;
use crate::warning::Warning;
use failure_script::{are_of_one_pair, are_unsafe, is_reached};
use pair_machine::Order;
use tuple_edge::OutOfMemory;

// Whether an order has its replica down once so many items are merged.
fn is_down_at(items: u64, order: &Order) -> bool
    ensures { result ≡ is_down_at items order.now }
{
    order.at <= items && !is_reached(items, order.back)
}

// The same, while the partner is down by another order.
fn is_down_beside(other: &Order, items: u64, order: &Order) -> bool
    ensures { result ≡ is_down_beside other.now items order.now }
{
    is_down_at(items, order) && (order.kill || order.at < other.at)
}

// Appends the warning of a stop that may be due while its partner is down.
fn push_stop(found: &mut Vec<Warning>, order: &Order, partner: &Order) -> Result<(), OutOfMemory>
    ensures { OnOk result (found.new.items ≡ found.old.items ++ stop_warnings order.now partner.now) }
{
    let is_alone = !order.kill && is_down_at(order.at, partner);
    let warning = Warning::Alone {
        order: *order,
        back: false,
        items: order.at,
        partner: *partner,
    };
    push_if(found, is_alone, warning)
}

// Appends the warning of a back that may be due while its partner is down.
fn push_back(found: &mut Vec<Warning>, order: &Order, partner: &Order) -> Result<(), OutOfMemory>
    ensures { OnOk result (found.new.items ≡ found.old.items ++ back_warnings order.now order.now.back partner.now) }
{
    match order.back {
        None => Ok(()),
        Some(back) => {
            let items = order.at.max(back);
            let warning = Warning::Alone {
                order: *order,
                back: true,
                items,
                partner: *partner,
            };
            push_if(found, is_down_beside(order, items, partner), warning)
        }
    }
}

// Appends the warnings of an order beside its partner's.
fn push_alone(found: &mut Vec<Warning>, order: &Order, partner: &Order) -> Result<(), OutOfMemory>
    ensures { OnOk result (found.new.items ≡ found.old.items ++ alone_warnings order.now partner.now) }
{
    push_stop(found, order, partner)?;
    push_back(found, order, partner)
}

// Appends the warnings of two orders.
fn push_two(found: &mut Vec<Warning>, first: &Order, second: &Order) -> Result<(), OutOfMemory>
    ensures { OnOk result (found.new.items ≡ found.old.items ++ two_warnings first.now second.now) }
{
    let warning = Warning::Unsafe {
        first: *first,
        second: *second,
    };
    push_if(found, are_unsafe(first, second), warning)?;
    if are_of_one_pair(first.node, second.node) {
        push_alone(found, first, second)?;
        push_alone(found, second, first)?;
    }
    Ok(())
}

// Appends the warnings of an order and each of those behind it.
fn push_beside(found: &mut Vec<Warning>, first: &Order, others: &[Order]) -> Result<(), OutOfMemory>
    ensures { OnOk result (found.new.items ≡ found.old.items ++ flat_map (two_warnings first.now) others.now) }
{
    for second in others {
        push_two(found, first, second)?;
    }
    Ok(())
}

// Appends the warnings of a script's orders.
pub(crate) fn push_script(found: &mut Vec<Warning>, orders: &[Order]) -> Result<(), OutOfMemory>
    ensures { OnOk result (found.new.items ≡ found.old.items ++ script_warnings orders.now) }
{
    let mut rest = orders;
    while let Some((first, others)) = rest.split_first() {
        push_beside(found, first, others)?;
        rest = others;
    }
    Ok(())
}

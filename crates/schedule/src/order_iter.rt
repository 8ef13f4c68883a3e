ghost use Rattle.std.specs.Prelude.{◌≡◌, ◌≤◌, drop, IsOk};
ghost use Rattle.std.specs.Iterator.{YieldsFirst, item_count};
ghost use Rattle.schedule.specs.Reading.{orders_from, orders_at};

use crate::order_number::Order;
use crate::parts::order_at;
use std::marker::Model;

/// The orders of a schedule that are left, in the order of its file.
// From place `at` on, where the `count`-th order begins, the file has no fault.
#[derive(Drop)]
pub struct Orders<'a> {
    file: &'a [u8],
    at: usize,
    count: usize,
}

impl<'a> Model for Orders<'a> {
    ghost use Rattle.std.specs.Prelude.{◌≤◌, List, drop, IsOk};
    ghost use Rattle.schedule.specs.declared.order_number.Order.{Order};
    ghost use Rattle.schedule.specs.Reading.{orders_from, orders_at};

    ghost Value = { List Order };

    ghost view = { λ o. orders_at o.file.now o.at o.count };

    ghost invariant = { λ o. IsOk (orders_from o.at o.count (drop o.at o.file.now)) × (o.count ≤ o.at) };
}

impl<'a> Orders<'a> {
    // The orders from a place to the end of a file, which has no fault from there on.
    pub(crate) fn new(file: &'a [u8], at: usize, count: usize) -> Orders<'a>
        requires sound { IsOk (orders_from at count (drop at file.now)) }
        requires counted { count ≤ at }
        ensures { result ≡ orders_at file.now at count }
    {
        Orders { file, at, count }
    }

    // The same orders once more.
    pub(crate) fn again(&self) -> Orders<'a>
        ensures { result ≡ self.now }
    {
        Orders {
            file: self.file,
            at: self.at,
            count: self.count,
        }
    }
}

impl<'a> Iterator for Orders<'a> {
    type Item = Order;

    ghost next_gives = { YieldsFirst (λ rest. rest) };

    ghost remaining = { item_count (λ rest. rest) };

    // The file has no fault from the place on, so an order stands there unless the file ends there.
    #[inline(always)]
    #[tactic(auto, using(crate::proofs::OneMoreOrder::next_order))]
    fn next(&mut self) -> Option<Order> {
        if self.at >= self.file.len() {
            return None;
        }
        let placed = order_at(self.file, self.at, self.count).unwrap();
        self.at = placed.next;
        self.count += 1;
        Some(placed.order)
    }
}

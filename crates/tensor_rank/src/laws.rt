//! The orders of components are orders, as the contract of a function with no parameters.
ghost use Rattle.tensor_rank.specs.Orders.{OrdersAreOrders};

/// Index order and each block order are strict orders, in which each two components of a rank are comparable.
pub fn orders_are_orders()
    ensures { OrdersAreOrders }
{}

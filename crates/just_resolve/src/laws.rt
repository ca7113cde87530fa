// Laws of resolution by names. Each function does nothing: its contract is the law.

ghost use Rattle.just_resolve.specs.Prelude.{NoOrderResolvesACycle};

/// If some assignments form a cycle, no order of the assignments makes the module resolved. So a module for which
/// `resolve` reports `Circular` cannot be resolved by another order.
pub fn no_order_resolves_a_cycle()
    ensures { NoOrderResolvesACycle }
{}

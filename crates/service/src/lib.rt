// Service orders: a plan over a pile, under a tariff.
#![tactic(auto)]

pub mod call;
pub mod order;

pub use call::Call;
pub use order::Order;

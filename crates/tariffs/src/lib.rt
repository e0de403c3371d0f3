// Amounts, and what base actions are charged.
#![tactic(auto)]

pub mod amount;
pub mod bank;
pub mod cents;
pub mod clinic;
pub mod quote;
mod row;
pub mod tariff;
pub mod visits;

pub use amount::Amount;
pub use bank::Bank;
pub use cents::Cents;
pub use clinic::Clinic;
pub use tariff::Tariff;
pub use visits::Visits;

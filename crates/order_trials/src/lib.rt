// Tests of service orders.
#![tactic(auto)]

#[cfg(test)]
mod tests;

#![tactic(auto)]

// Tests of the regions: what they list is held against concrete values.

#[cfg(test)]
mod concrete;
#[cfg(test)]
mod tests;

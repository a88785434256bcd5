#![tactic(auto)]

// Tests of veto sums and of the relay, at all three fields.
#[cfg(test)]
mod holders;
#[cfg(test)]
mod loads;
#[cfg(test)]
mod moduli;
#[cfg(test)]
mod refusals;
#[cfg(test)]
mod vetoes;

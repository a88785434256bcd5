#![tactic(auto)]

// Tests of the fields against values from outside.
#[cfg(test)]
mod cases;
#[cfg(test)]
mod gf2;
#[cfg(test)]
mod gf256;
#[cfg(test)]
mod modulo_257;
#[cfg(test)]
mod refusals;
#[cfg(test)]
mod residue_field;

// GF(256) as in FIPS 197, with the reducing polynomial 11B hex: a code is a byte. Every code but 0 is a power of 3, so
// logarithms add up to products.
ghost use Rattle.std.specs.Prelude.{◌≡◌, ◌<◌};
ghost use Rattle.field.specs.Answers.{code_answer};
ghost use Rattle.field.specs.Gf256.{gf256, gf256_product};
ghost use Rattle.field.specs.Polynomials.{gf256_lawful};

use super::fault::FieldFault;
use super::{Field, check_two};
use tables::{exp, log};

mod tables;

#[derive(Clone, Copy)]
pub struct Gf256;

impl Field for Gf256 {
    ghost ops = { λ _. gf256 };

    ghost lawful = { λ f. gf256_lawful };

    fn size(&self) -> u32 {
        256
    }

    fn sum(&self, a: u16, b: u16) -> Result<u16, FieldFault> {
        check_two(256, a, b)?;
        Ok(a ^ b)
    }

    // Every code is its own negative.
    fn difference(&self, a: u16, b: u16) -> Result<u16, FieldFault> {
        self.sum(a, b)
    }

    fn product(&self, a: u16, b: u16) -> Result<u16, FieldFault> {
        // Both numbers are tested at once: where each is made a byte by itself, a veto sum takes a third longer.
        check_two(256, a, b)?;
        Ok(u16::from(times(a as u8, b as u8)))
    }

    fn inverse(&self, a: u16) -> Result<u16, FieldFault> {
        match byte(a)? {
            0 => Err(FieldFault::InverseOfZero),
            a => Ok(u16::from(reciprocal(a))),
        }
    }
}

// A number as a code of this field; the type says that it is below 256.
fn byte(a: u16) -> Result<u8, FieldFault>
    ensures { result ≡ code_answer 256 a }
{
    u8::try_from(a).map_err(|_| FieldFault::CodeTooLarge)
}

// The product of two codes.
fn times(a: u8, b: u8) -> u8
    ensures { result ≡ gf256_product a b }
{
    if a == 0 || b == 0 {
        return 0;
    }
    exp(log(a) + log(b))
}

// The inverse of a code above 0.
fn reciprocal(a: u8) -> u8
    requires { 0 < a }
    ensures { result ≡ gf256.inverse a }
{
    exp(255 - log(a))
}

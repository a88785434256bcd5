// The integers modulo a prime q of which q - 2 is all ones in binary: the calls of such a field, written once for every such q.
// Of these GF(2) and the integers modulo 257, which are delivered, have an impl of `Field` each, of one call in a line; every modulus
// has a field by the type `ResidueField`. One impl for every `Modulus` would match every type, and then the check does not know which
// impl is meant at a type that is generic over fields.
ghost use Rattle.std.specs.Prelude.{◌≡◌, ℕ, ◌-◌, ◌^◌, ◌<◌, ◌≤◌, true};
ghost use Rattle.field.specs.Answers.{one_answer, sum_answer, difference_answer, product_answer, inverse_answer};
ghost use Rattle.field.specs.Residues.{residues};
ghost use Rattle.field.specs.Remainders.{invertible};
ghost use Rattle.field.specs.Tests.{all_below};

use super::check_two;
use super::fault::FieldFault;

// A field of integers modulo q, by its q.
pub trait Modulus {
    const Q: u16;

    // How many ones q - 2 has in binary.
    const TURNS: u32;

    ghost Q: { ℕ };

    ghost TURNS: { ℕ };

    ghost least: { 1 < Q };

    // So the sum of two codes has 16 bits.
    ghost most: { Q ≤ 32768 };

    ghost turned: { Q - 2 ≡ 2 ^ TURNS - 1 };

    // Every code but 0 has its inverse, as a test finds that is computed.
    ghost inverses: { all_below (invertible Q TURNS) (Q - 1) ≡ true };
}

// How many codes there are.
pub fn size<M: Modulus>() -> u32
    ensures { result ≡ (residues M.Q).size }
{
    u32::from(M::Q)
}

// The sum of two codes.
pub fn sum<M: Modulus>(a: u16, b: u16) -> Result<u16, FieldFault>
    ensures { result ≡ sum_answer (residues M.Q) a b }
{
    check_two(M::Q, a, b)?;
    Ok((a + b) % M::Q)
}

// The difference of two codes.
pub fn difference<M: Modulus>(a: u16, b: u16) -> Result<u16, FieldFault>
    ensures { result ≡ difference_answer (residues M.Q) a b }
{
    check_two(M::Q, a, b)?;
    Ok((a + (M::Q - b)) % M::Q)
}

// The product of two codes. Remainders are narrowed by casts, since `try_from` would have a case that never comes.
pub fn product<M: Modulus>(a: u16, b: u16) -> Result<u16, FieldFault>
    ensures { result ≡ product_answer (residues M.Q) a b }
{
    check_two(M::Q, a, b)?;
    Ok((u32::from(a) * u32::from(b) % u32::from(M::Q)) as u16)
}

// The inverse of a code, its power q - 2: each turn squares and multiplies, and so writes a one behind the exponent in binary.
pub fn inverse<M: Modulus>(a: u16) -> Result<u16, FieldFault>
    ensures { result ≡ inverse_answer (residues M.Q) a }
{
    check_inverse(M::Q, a)?;
    let q = u32::from(M::Q);
    let base = u32::from(a);
    let mut power = 1;
    for _turn in 0..M::TURNS {
        power = power * power % q * base % q;
    }
    Ok(power as u16)
}

// Refuses a number that is no code, and 0, which has no inverse.
fn check_inverse(q: u16, a: u16) -> Result<(), FieldFault>
    ensures { result ≡ one_answer q a }
{
    if a >= q {
        return Err(FieldFault::CodeTooLarge);
    }
    if a == 0 {
        return Err(FieldFault::InverseOfZero);
    }
    Ok(())
}

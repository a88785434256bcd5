// Veto sums at all three fields.
use elimination::fault::RowsFault;
use elimination::veto::veto_sum;
use field::fault::FieldFault;
use field::gf2::Gf2;
use field::gf256::Gf256;
use field::modulo_257::Modulo257;

#[test]
fn sums(rt: HostRuntime) {
    assert_eq!(rt; veto_sum(&Modulo257, &[], &[]), Ok(0));
    assert_eq!(rt; veto_sum(&Modulo257, &[0, 1], &[256, 1]), Ok(1));
    assert_eq!(rt; veto_sum(&Modulo257, &[1, 2, 16], &[256, 5, 17]), Ok(24));
    assert_eq!(rt; veto_sum(&Gf256, &[0x57, 2], &[0x83, 0x80]), Ok(0xda));
    assert_eq!(rt; veto_sum(&Gf2, &[1, 1, 1], &[1, 0, 1]), Ok(0));
}

#[test]
fn refusals(rt: HostRuntime) {
    let no_code = RowsFault::Field(FieldFault::CodeTooLarge);
    assert_eq!(rt; veto_sum(&Gf2, &[2], &[1, 1]), Err(RowsFault::WrongLength));
    assert_eq!(rt; veto_sum(&Gf2, &[2], &[1]), Err(no_code));
    assert_eq!(rt; veto_sum(&Gf256, &[255], &[256]), Err(no_code));
    assert_eq!(rt; veto_sum(&Modulo257, &[256], &[256]), Ok(1));
}

// Operators on constants, in tables of cases.
use crate::{Constant, number_in, of_joined, of_numbers, of_texts, of_truths, prefixed};
use std::alloc::Global;
use std::test::Fail;
use tu_base::{Binary, Bytes, Junction, Memory, Relation, Unary};
use tu_type_base::Int;

/// An operator on two ints, and the int that it gives, or none where it raises an exception.
#[derive(Clone, Copy)]
struct NumberCase(Binary, i32, i32, Option<i32>);

/// A relation of two texts, and whether it holds.
#[derive(Clone, Copy)]
struct TextCase(Relation, &'static [u8], &'static [u8], bool);

const MOST: i32 = 2_147_483_647;

fn number(value: i32) -> Constant {
    match Int::new(value) {
        Some(z) => Constant::Is(z),
        None => Constant::NoConstant,
    }
}

fn text(alloc: Global, bytes: &[u8]) -> Result<Constant, Memory> {
    let copy = Bytes::from_slice(alloc, bytes)?;
    Ok(Constant::IsText(copy))
}

fn is_raising(x: &Constant) -> bool {
    matches!(x, Constant::Raising)
}

fn is_number(x: &Constant, wanted: i32) -> bool {
    match number_in(x) {
        Some(z) => z.get() == wanted,
        None => false,
    }
}

fn is_answer(x: &Constant, wanted: Option<i32>) -> bool {
    match wanted {
        Some(number) => is_number(x, number),
        None => is_raising(x),
    }
}

#[test]
fn operators_on_numbers(rt: HostRuntime) -> Result<(), Fail> {
    let cases = [
        NumberCase(Binary::Add, MOST, 1, None),
        NumberCase(Binary::Add, MOST, -1, Some(2_147_483_646)),
        NumberCase(Binary::Subtract, -MOST, 1, None),
        NumberCase(Binary::Multiply, 65_536, 32_768, None),
        NumberCase(Binary::Multiply, -46_340, 46_340, Some(-2_147_395_600)),
        NumberCase(Binary::Divide, -7, 2, Some(-3)),
        NumberCase(Binary::Modulo, -7, 2, Some(-1)),
        NumberCase(Binary::Divide, 7, 0, None),
        NumberCase(Binary::Modulo, 7, 0, None),
        NumberCase(Binary::Power, 0, 0, Some(1)),
        NumberCase(Binary::Power, -1, MOST, Some(-1)),
        NumberCase(Binary::Power, 2, 30, Some(1_073_741_824)),
        NumberCase(Binary::Power, 2, 31, None),
        NumberCase(Binary::Power, -2, 31, None),
        NumberCase(Binary::Power, 2, -1, None),
        NumberCase(Binary::Least, -5, 3, Some(-5)),
        NumberCase(Binary::Greatest, -5, 3, Some(3)),
        NumberCase(Binary::Compare(Relation::LessOrEqual), 3, 3, Some(1)),
    ];
    for NumberCase(operator, left, right, wanted) in cases.iter() {
        let whole = of_numbers(*operator, &number(*left), &number(*right));
        assert!(rt; is_answer(&whole, *wanted));
    }
    Ok(())
}

#[test]
fn operators_on_texts(rt: HostRuntime) -> Result<(), Fail> {
    let alloc = rt.alloc();
    let cases = [
        TextCase(Relation::Less, b"a", b"ab", true),
        TextCase(Relation::Less, b"b", b"ab", false),
        TextCase(Relation::Greater, b"b", b"ab", true),
        TextCase(Relation::Equal, b"ab", b"ab", true),
        TextCase(Relation::NotEqual, b"", b"a", true),
        TextCase(Relation::GreaterOrEqual, b"", b"", true),
    ];
    for TextCase(relation, left, right, wanted) in cases.iter() {
        let whole = of_texts(*relation, &text(alloc, left)?, &text(alloc, right)?);
        assert!(rt; is_number(&whole, i32::from(*wanted)));
    }
    let whole = of_joined(alloc, &text(alloc, b"ab")?, &text(alloc, b"c")?)?;
    let copy = whole.duplicate(alloc)?;
    let same = of_texts(Relation::Equal, &copy, &text(alloc, b"abc")?);
    assert!(rt; is_number(&same, 1));
    Ok(())
}

#[test]
fn truth_values_and_prefixes(rt: HostRuntime) {
    let unseen = of_truths(Junction::And, &number(0), Constant::Raising);
    assert!(rt; is_number(&unseen, 0));
    let seen = of_truths(Junction::Or, &number(0), number(1));
    assert!(rt; is_number(&seen, 1));
    let negated = prefixed(&[Unary::Minus, Unary::Plus], number(5));
    assert!(rt; is_number(&negated, -5));
}

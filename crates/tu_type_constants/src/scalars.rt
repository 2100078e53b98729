// What operators on numbers and truth values give.
ghost use Rattle.std.specs.Prelude.{◌≡◌, ◌+ℤ◌, ◌-ℤ◌, ◌*ℤ◌, int_div, int_rem, Some, None, if◌then◌else◌};
ghost use Rattle.std.specs.Ordering.{is_lt, is_eq, is_gt};
ghost use Rattle.tu_base.specs.Scalars.{is_int, exact as exact_of, divided, least, greatest, compared, unary, binary, by_order as by_order_of, decided, place_within};
ghost use Rattle.tu_type_constants.specs.Constants.{int_in};

use crate::power::power;
use std::cmp::Ordering;
use tu_base::{Binary, Junction, MOST_INT, Relation, Unary};
use tu_type_base::Int;

/// A number that is an int, or none.
fn exact(value: i64) -> Option<Int>
    ensures { result ≡ (if is_int value then Some value else None) }
{
    if value.unsigned_abs() <= u64::from(MOST_INT) {
        Int::new(value as i32)
    } else {
        None
    }
}

/// A place of an enumeration, or none where it has no such place.
fn place_within(last: u32, place: i64) -> Option<Int>
    ensures { result ≡ int_in (place_within last place) }
{
    if 0 <= place && place <= i64::from(last) {
        exact(place)
    } else {
        None
    }
}

/// What an operator gives, or none where it raises an exception.
pub fn unary(operator: Unary, z: Int) -> Option<Int>
    ensures { result ≡ int_in (unary operator z) }
{
    let z = i64::from(z.get());
    match operator {
        Unary::Plus => exact(z),
        Unary::Minus => exact(-z),
        Unary::Not => exact(i64::from(z == 0)),
        Unary::Absolute => exact(z.abs()),
        Unary::Successor => exact(z + 1),
        Unary::Predecessor => exact(z - 1),
        Unary::Next { last } => place_within(last, z + 1),
        Unary::Previous { last } => place_within(last, z - 1),
    }
}

/// What a relation says of two values in this order.
pub fn by_order(relation: Relation, order: Ordering) -> bool
    ensures { result ≡ by_order_of relation (is_lt order) (is_eq order) (is_gt order) }
{
    match relation {
        Relation::Equal => order.is_eq(),
        Relation::NotEqual => order.is_ne(),
        Relation::Less => order.is_lt(),
        Relation::Greater => order.is_gt(),
        Relation::LessOrEqual => order.is_le(),
        Relation::GreaterOrEqual => order.is_ge(),
    }
}

fn compared(relation: Relation, a: Int, b: Int) -> bool
    ensures { result ≡ compared relation a b }
{
    by_order(relation, a.get().cmp(&b.get()))
}

fn sum(a: Int, b: Int) -> Option<Int>
    ensures { result ≡ int_in (exact_of (a +ℤ b)) }
{
    exact(i64::from(a.get()) + i64::from(b.get()))
}

fn difference(a: Int, b: Int) -> Option<Int>
    ensures { result ≡ int_in (exact_of (a -ℤ b)) }
{
    exact(i64::from(a.get()) - i64::from(b.get()))
}

fn product(a: Int, b: Int) -> Option<Int>
    ensures { result ≡ int_in (exact_of (a *ℤ b)) }
{
    exact(i64::from(a.get()) * i64::from(b.get()))
}

/// The quotient, toward zero, or none where the divisor is 0.
fn quotient(a: Int, b: Int) -> Option<Int>
    ensures { result ≡ int_in (divided int_div a b) }
{
    let divisor = b.get();
    if divisor == 0 {
        return None;
    }
    exact(i64::from(a.get()) / i64::from(divisor))
}

/// The remainder, with the sign of the left operand, or none where the divisor is 0.
fn remainder(a: Int, b: Int) -> Option<Int>
    ensures { result ≡ int_in (divided int_rem a b) }
{
    let divisor = b.get();
    if divisor == 0 {
        return None;
    }
    exact(i64::from(a.get()) % i64::from(divisor))
}

fn least(a: Int, b: Int) -> Int
    ensures { result ≡ least a b }
{
    if a.get() <= b.get() { a } else { b }
}

fn greatest(a: Int, b: Int) -> Int
    ensures { result ≡ greatest a b }
{
    if a.get() <= b.get() { b } else { a }
}

/// What an operator gives, or none where it raises an exception.
pub fn binary(operator: Binary, a: Int, b: Int) -> Option<Int>
    ensures { result ≡ int_in (binary operator a b) }
{
    match operator {
        Binary::Add => sum(a, b),
        Binary::Subtract => difference(a, b),
        Binary::Multiply => product(a, b),
        Binary::Divide => quotient(a, b),
        Binary::Modulo => remainder(a, b),
        Binary::Power => power(a, b),
        Binary::Least => Int::new(least(a, b).get()),
        Binary::Greatest => Int::new(greatest(a, b).get()),
        Binary::Compare(relation) => Int::new(i32::from(compared(relation, a, b))),
    }
}

/// What the left operand decides alone.
pub fn decided(operator: Junction, left: bool) -> Option<bool>
    ensures { result ≡ decided operator left }
{
    match operator {
        Junction::And => { if left { None } else { Some(false) } }
        Junction::Or => { if left { Some(true) } else { None } }
        Junction::Implies => { if left { None } else { Some(true) } }
    }
}

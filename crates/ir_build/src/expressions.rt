// The code of an expression.
ghost use Rattle.std.specs.Prelude.{◌≡◌, ◌+◌, ◌*◌, ◌≤◌, IfOk, OnOk};
ghost use Rattle.grammar.specs.Tree.{height};
ghost use Rattle.ir_build.specs.Code.{code_expr, code_path, code_prefix, code_primary, code_sum, code_term, made, signed_term};
ghost use Rattle.ir_build.specs.Tokens.{tokens_in};

use crate::Environment;
use crate::literals::{literal_of, number_of};
use ir_code::Code;
use tu_base::{Line, Memory};
use tu_expr::{
    Expr, Multiplication, Path, Prefix, Primary, PrimaryForm, Sign, Sum, Term, primary_of, sum_of,
};
use tu_value::{difference, fetch, less, literal, more, product, sum};

// Appends the reading of a variable.
fn variable(
    code: &mut Code,
    environment: &Environment<'_>,
    line: Line,
    path: &Path,
) -> Result<u32, Memory>
    requires { code.old.next + 12 * tokens_in path.now ≤ 4294967295 }
    ensures made { IfOk result (λ value. made code.new value ≡ code_path environment.now.fixed environment.now.names.now line path.now code.old) }
    ensures next { OnOk result (code.new.next ≤ code.old.next + 12 * tokens_in path.now) }
{
    if !path.steps.is_empty() {
        return Ok(0);
    }
    match environment.names.find(path.root.text.as_slice()) {
        None => Ok(0),
        Some(at) => fetch(code, environment.alloc, environment.fixed, line, at),
    }
}

/// Appends what works out an expression, and gives the number of its value.
#[cycle(code)]
#[tactic(auto, using(crate::proofs::Operators::value_by, crate::proofs::Operators::sum_tokens))]
pub fn expression(
    code: &mut Code,
    environment: &Environment<'_>,
    line: Line,
    expr: &Expr,
) -> Result<u32, Memory>
    requires { code.old.next + 12 * tokens_in expr.now ≤ 4294967295 }
    ensures made { IfOk result (λ value. made code.new value ≡ code_expr environment.now.fixed environment.now.names.now line expr.now code.old) }
    ensures next { OnOk result (code.new.next ≤ code.old.next + 12 * tokens_in expr.now) }
{
    match sum_of(expr) {
        Err(_) => Ok(0),
        Ok(sum) => terms(code, environment, line, sum),
    }
}

/// Appends what works out a sum, from the left.
#[cycle(code)]
pub fn terms(
    code: &mut Code,
    environment: &Environment<'_>,
    line: Line,
    sum: &Sum,
) -> Result<u32, Memory>
    requires { code.old.next + 12 * tokens_in sum.now ≤ 4294967295 }
    ensures made { IfOk result (λ value. made code.new value ≡ code_sum environment.now.fixed environment.now.names.now line sum.now code.old) }
    ensures next { OnOk result (code.new.next ≤ code.old.next + 12 * tokens_in sum.now) }
{
    let mut value = factors(code, environment, line, &sum.first)?;
    for (sign, term) in sum.more.as_slice() {
        value = further_term(code, environment, line, value, *sign, term)?;
    }
    Ok(value)
}

// Appends what adds a term to a value or subtracts it.
#[cycle(code)]
fn further_term(
    code: &mut Code,
    environment: &Environment<'_>,
    line: Line,
    left: u32,
    sign: Sign,
    term: &Term,
) -> Result<u32, Memory>
    requires { code.old.next + 12 * (tokens_in term.now + 1) ≤ 4294967295 }
    ensures made { IfOk result (λ value. made code.new value ≡ signed_term environment.now.fixed environment.now.names.now line sign (made code.old left) term.now) }
    ensures next { OnOk result (code.new.next ≤ code.old.next + 12 * (tokens_in term.now + 1)) }
{
    let alloc = environment.alloc;
    let fixed = environment.fixed;
    match literal_of(term) {
        Some(number) => match sign {
            Sign::Plus => more(code, alloc, line, left, number),
            Sign::Minus => less(code, alloc, line, left, number),
        },
        None => {
            let right = factors(code, environment, line, term)?;
            match sign {
                Sign::Plus => sum(code, alloc, fixed, line, left, right),
                Sign::Minus => difference(code, alloc, fixed, line, left, right),
            }
        }
    }
}

// Appends what works out a product, from the left.
#[cycle(code)]
fn factors(
    code: &mut Code,
    environment: &Environment<'_>,
    line: Line,
    term: &Term,
) -> Result<u32, Memory>
    requires { code.old.next + 12 * tokens_in term.now ≤ 4294967295 }
    ensures made { IfOk result (λ value. made code.new value ≡ code_term environment.now.fixed environment.now.names.now line term.now code.old) }
    ensures next { OnOk result (code.new.next ≤ code.old.next + 12 * tokens_in term.now) }
{
    let alloc = environment.alloc;
    let fixed = environment.fixed;
    let mut value = factor(code, environment, line, &term.first)?;
    for (operator, prefix) in term.more.as_slice() {
        if *operator != Multiplication::Times {
            return Ok(value);
        }
        let right = factor(code, environment, line, prefix)?;
        value = product(code, alloc, fixed, line, value, right)?;
    }
    Ok(value)
}

// Appends what works out a factor.
#[cycle(code)]
#[tactic(auto, using(crate::proofs::Operators::factor_by, crate::proofs::Operators::primary_tokens))]
fn factor(
    code: &mut Code,
    environment: &Environment<'_>,
    line: Line,
    prefix: &Prefix,
) -> Result<u32, Memory>
    requires { code.old.next + 12 * tokens_in prefix.now ≤ 4294967295 }
    ensures made { IfOk result (λ value. made code.new value ≡ code_prefix environment.now.fixed environment.now.names.now line prefix.now code.old) }
    ensures next { OnOk result (code.new.next ≤ code.old.next + 12 * tokens_in prefix.now) }
{
    match primary_of(prefix) {
        Err(_) => Ok(0),
        Ok(primary) => operand(code, environment, line, primary),
    }
}

// Appends what works out a number, a variable or an expression in brackets.
#[cycle(code)]
#[tactic(auto, using(crate::proofs::Operands::path_code, crate::proofs::Operands::brackets_code))]
fn operand(
    code: &mut Code,
    environment: &Environment<'_>,
    line: Line,
    primary: &Primary,
) -> Result<u32, Memory>
    requires { code.old.next + 12 * tokens_in primary.now ≤ 4294967295 }
    ensures made { IfOk result (λ value. made code.new value ≡ code_primary environment.now.fixed environment.now.names.now line primary.now code.old) }
    ensures next { OnOk result (code.new.next ≤ code.old.next + 12 * tokens_in primary.now) }
{
    match &primary.form {
        PrimaryForm::Number(digits) => literal(code, number_of(digits.text.as_slice())),
        PrimaryForm::Path(path) => variable(code, environment, line, path),
        PrimaryForm::Brackets(inner) => expression(code, environment, line, inner.get()),
        PrimaryForm::True | PrimaryForm::False => Ok(0),
        PrimaryForm::Text(..) | PrimaryForm::Nil(_) => Ok(0),
    }
}

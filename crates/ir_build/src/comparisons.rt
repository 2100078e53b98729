// The code of a condition.
ghost use Rattle.std.specs.Prelude.{◌≡◌, ◌+◌, ◌*◌, ◌≤◌, IfOk, OnOk};
ghost use Rattle.std.specs.Option.{option_map};
ghost use Rattle.ir_code.specs.declared.code.Code.{Code};
ghost use Rattle.ir_build.specs.Relations.{comparison_of};
ghost use Rattle.ir_build.specs.Code.{test_compare, test_expr, where_tested};
ghost use Rattle.ir_build.specs.Compared.{comparison, tested_code};
ghost use Rattle.ir_build.specs.Tokens.{tokens_in};

use crate::Environment;
use crate::expressions::terms;
use ir_code::{Code, choice};
use ir_form::Op;
use rv_isa::Relation;
use sqlite_items::Items;
use std::alloc::Global;
use tu_base::{Line, Memory};
use tu_expr::{Compare, Expr, RelationKind, compare_of};

/// Two values, and how they are compared.
#[derive(Clone, Copy, Debug)]
pub struct Tested {
    pub relation: Relation,
    /// Whether the right value comes first.
    pub is_swapped: bool,
    pub left: u32,
    pub right: u32,
}

const NOT_TESTED: Tested = Tested {
    relation: Relation::Equal,
    is_swapped: false,
    left: 0,
    right: 0,
};

// How a relation is tested on words, and whether the right side comes first.
fn comparison_of(relation: &tu_expr::Relation) -> Option<(Relation, bool)>
    ensures { option_map comparison result ≡ comparison_of relation.now }
{
    match relation.kind {
        RelationKind::Equal => Some((Relation::Equal, false)),
        RelationKind::NotEqual => Some((Relation::NotEqual, false)),
        RelationKind::Less => Some((Relation::LessUnsigned, false)),
        RelationKind::Greater => Some((Relation::LessUnsigned, true)),
        RelationKind::LessOrEqual => Some((Relation::GreaterOrEqualUnsigned, true)),
        RelationKind::GreaterOrEqual => Some((Relation::GreaterOrEqualUnsigned, false)),
        RelationKind::In | RelationKind::NotIn => None,
    }
}

// Appends what works out the two sides of a comparison.
fn comparison(
    code: &mut Code,
    environment: &Environment<'_>,
    line: Line,
    compare: &Compare,
) -> Result<Tested, Memory>
    requires { code.old.next + 12 * tokens_in compare.now ≤ 4294967295 }
    ensures made { IfOk result (λ tested. tested_code code.new tested ≡ test_compare environment.now.fixed environment.now.names.now line compare.now code.old) }
    ensures next { OnOk result (code.new.next ≤ code.old.next + 12 * tokens_in compare.now) }
{
    if compare.more.len() != 1 {
        return Ok(NOT_TESTED);
    }
    let (relation, operand) = &compare.more.as_slice()[0];
    let left = terms(code, environment, line, &compare.first)?;
    let right = terms(code, environment, line, operand)?;
    match comparison_of(relation) {
        None => Ok(NOT_TESTED),
        Some((relation, is_swapped)) => Ok(Tested {
            relation,
            is_swapped,
            left,
            right,
        }),
    }
}

/// Appends what works out the two sides of a condition.
#[tactic(auto, using(crate::proofs::Operators::test_by, crate::proofs::Operators::compare_tokens))]
pub fn condition(
    code: &mut Code,
    environment: &Environment<'_>,
    line: Line,
    expr: &Expr,
) -> Result<Tested, Memory>
    requires { code.old.next + 12 * tokens_in expr.now ≤ 4294967295 }
    ensures made { IfOk result (λ tested. tested_code code.new tested ≡ test_expr environment.now.fixed environment.now.names.now line expr.now code.old) }
    ensures next { OnOk result (code.new.next ≤ code.old.next + 12 * tokens_in expr.now) }
{
    match compare_of(expr) {
        Err(_) => Ok(NOT_TESTED),
        Ok(compare) => comparison(code, environment, line, compare),
    }
}

/// The first operations where the condition holds, and else the others.
pub fn where_tested(alloc: Global, tested: Tested, first: Items<Op>, others: Items<Op>) -> Op
    ensures { (code : Code) → result ≡ where_tested (tested_code code tested) first others }
{
    if tested.is_swapped {
        choice(
            alloc,
            tested.relation,
            tested.right,
            tested.left,
            first,
            others,
        )
    } else {
        choice(
            alloc,
            tested.relation,
            tested.left,
            tested.right,
            first,
            others,
        )
    }
}

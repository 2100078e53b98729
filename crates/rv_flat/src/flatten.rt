// The linear code of operations.

ghost use Rattle.std.specs.Prelude.{◌≡◌, ℕ, ◌+◌, ◌<◌, ◌^◌, [], ◌∷◌, ◌++◌, length, Option, None, IfOk, OnOk};
ghost use Rattle.std.specs.Option.{option_copied};
ghost use Rattle.rv_flat.specs.Flat.{around_of, labels, labels_list, labels_each, arm_labels, plain_code, code_of, code_list, hand_code, leave_code, target_of, range_tests, tests_each, region_code, arm_code, case_code, choice_code, rounds_code, handling_code};

use crate::copy::{copied_handler, copied_plain, copied_values};
use crate::linear::{Handler, Instruction, Target};
use ir_form::{Arm, Exit, Op, Plain, Range, Region};
use sqlite_items::Items;
use std::alloc::Global;
use tu_base::Memory;

// The label behind so many.
fn reserved(next: u64, count: u64) -> Result<u64, Memory>
    ensures { IfOk result (λ n. n ≡ next + count) }
{
    match next.checked_add(count) {
        Some(n) => Ok(n),
        None => Err(Memory),
    }
}

// The loop that is left, among those around, the innermost of which is the last.
fn target(around: &[Target], exit: Exit) -> Option<&Target>
    ensures { option_copied result ≡ target_of (around_of around.now None) exit }
{
    match exit {
        Exit::Routine => None,
        Exit::Loop(outside) => {
            let outside = outside as usize;
            if outside < around.len() {
                Some(&around[around.len() - 1 - outside])
            } else {
                None
            }
        }
    }
}

// The code of a routine so far, the loops around what comes next, and what takes its exceptions.
#[derive(Drop)]
pub struct Output {
    code: Vec<Instruction>,
    around: Vec<Target>,
    handler: Option<Handler>,
}

// Each `put` answers the label after its own, which begin at `next`.
impl Output {
    // Nothing so far.
    pub fn new(alloc: Global) -> Self
        ensures code { result.code.items ≡ [] }
        ensures around { result.around.items ≡ [] }
        ensures handler { result.handler ≡ None }
    {
        Output {
            code: Vec::new(alloc),
            around: Vec::new(alloc),
            handler: None,
        }
    }

    pub fn into_code(self) -> Items<Instruction>
        ensures { result ≡ self.code.items }
    {
        let Output { code, .. } = self;
        Items::from_vec(code)
    }

    // One more instruction.
    pub fn put(&mut self, instruction: Instruction) -> Result<(), Memory>
        ensures code { OnOk result (self.new.code.items ≡ self.old.code.items ++ instruction ∷ []) }
        ensures around { OnOk result (self.new.around.items ≡ self.old.around.items) }
        ensures handler { OnOk result (self.new.handler ≡ self.old.handler) }
    {
        self.code.push(instruction)?;
        Ok(())
    }

    fn put_label(&mut self, label: u64, marked: bool) -> Result<(), Memory>
        ensures code { OnOk result (self.new.code.items ≡ self.old.code.items ++ Instruction.Label label marked ∷ []) }
        ensures around { OnOk result (self.new.around.items ≡ self.old.around.items) }
        ensures handler { OnOk result (self.new.handler ≡ self.old.handler) }
    {
        self.put(Instruction::Label { label, marked })
    }

    // An operation, whose exception what lies around takes.
    fn put_plain(&mut self, alloc: Global, plain: &Plain) -> Result<(), Memory>
        ensures code { OnOk result (self.new.code.items ≡ self.old.code.items ++ plain_code self.old.handler plain.now ∷ []) }
        ensures around { OnOk result (self.new.around.items ≡ self.old.around.items) }
        ensures handler { OnOk result (self.new.handler ≡ self.old.handler) }
    {
        let plain = copied_plain(alloc, plain)?;
        match &self.handler {
            None => self.put(Instruction::Plain(plain)),
            Some(handler) => {
                let handler = copied_handler(alloc, handler)?;
                self.put(Instruction::Guarded { plain, handler })
            }
        }
    }

    // Hands values on, if there are any.
    fn put_hand(&mut self, alloc: Global, to: &Items<u32>, from: &Items<u32>) -> Result<(), Memory>
        ensures code { OnOk result (self.new.code.items ≡ self.old.code.items ++ hand_code to.now from.now) }
        ensures around { OnOk result (self.new.around.items ≡ self.old.around.items) }
        ensures handler { OnOk result (self.new.handler ≡ self.old.handler) }
    {
        if from.is_empty() {
            return Ok(());
        }
        let to = copied_values(alloc, to)?;
        let from = copied_values(alloc, from)?;
        self.put(Instruction::Hand { to, from })
    }

    fn put_leave(&mut self, alloc: Global, exit: Exit, gives: &Items<u32>) -> Result<(), Memory>
        ensures code { OnOk result (self.new.code.items ≡ self.old.code.items ++ leave_code (target_of (around_of self.old.around.items self.old.handler) exit) gives.now) }
        ensures around { OnOk result (self.new.around.items ≡ self.old.around.items) }
        ensures handler { OnOk result (self.new.handler ≡ self.old.handler) }
    {
        match target(self.around.as_slice(), exit) {
            None => {
                let gives = copied_values(alloc, gives)?;
                self.put(Instruction::Back { gives })
            }
            Some(t) => {
                let label = t.label;
                let to = copied_values(alloc, &t.to)?;
                self.put_hand(alloc, &to, gives)?;
                self.put(Instruction::Jump { label })
            }
        }
    }

    // Compares a value with an arm's ranges, and goes to its label.
    fn put_range_tests(&mut self, value: u32, label: u64, ranges: &[Range]) -> Result<(), Memory>
        ensures code { OnOk result (self.new.code.items ≡ self.old.code.items ++ range_tests value label ranges.now) }
        ensures around { OnOk result (self.new.around.items ≡ self.old.around.items) }
        ensures handler { OnOk result (self.new.handler ≡ self.old.handler) }
    {
        for range in ranges {
            self.put(Instruction::Within {
                value,
                range: *range,
                label,
            })?;
        }
        Ok(())
    }

    // Compares a value with the ranges of arms, whose labels begin at `first`.
    fn put_tests(&mut self, value: u32, first: u64, arms: &[Arm]) -> Result<(), Memory>
        requires { first + length arms.now < 2 ^ 64 }
        ensures code { OnOk result (self.new.code.items ≡ self.old.code.items ++ tests_each value first arms.now) }
        ensures around { OnOk result (self.new.around.items ≡ self.old.around.items) }
        ensures handler { OnOk result (self.new.handler ≡ self.old.handler) }
    {
        let mut label = first;
        for arm in arms {
            self.put_range_tests(value, label, arm.ranges.as_slice())?;
            label += 1;
        }
        Ok(())
    }

    #[cycle(put)]
    pub fn put_ops(&mut self, alloc: Global, next: u64, ops: &[Op]) -> Result<u64, Memory>
        ensures code { OnOk result (self.new.code.items ≡ self.old.code.items ++ code_list (around_of self.old.around.items self.old.handler) next ops.now) }
        ensures around { OnOk result (self.new.around.items ≡ self.old.around.items) }
        ensures handler { OnOk result (self.new.handler ≡ self.old.handler) }
        ensures next { IfOk result (λ n. n ≡ next + labels_list ops.now) }
    {
        let mut n = next;
        for op in ops {
            n = self.put_op(alloc, n, op)?;
        }
        Ok(n)
    }

    // A region, whose results are handed on.
    #[cycle(put)]
    fn put_region(
        &mut self,
        alloc: Global,
        next: u64,
        region: &Region,
        to: &Items<u32>,
    ) -> Result<u64, Memory>
        ensures code { OnOk result (self.new.code.items ≡ self.old.code.items ++ region_code (around_of self.old.around.items self.old.handler) next to.now region.now) }
        ensures around { OnOk result (self.new.around.items ≡ self.old.around.items) }
        ensures handler { OnOk result (self.new.handler ≡ self.old.handler) }
        ensures next { IfOk result (λ n. n ≡ next + labels_list region.now.ops) }
    {
        let n = self.put_ops(alloc, next, region.ops.as_slice())?;
        self.put_hand(alloc, to, &region.results)?;
        Ok(n)
    }

    #[cycle(put)]
    fn put_op(&mut self, alloc: Global, next: u64, op: &Op) -> Result<u64, Memory>
        ensures code { OnOk result (self.new.code.items ≡ self.old.code.items ++ code_of (around_of self.old.around.items self.old.handler) next op.now) }
        ensures around { OnOk result (self.new.around.items ≡ self.old.around.items) }
        ensures handler { OnOk result (self.new.handler ≡ self.old.handler) }
        ensures next { IfOk result (λ n. n ≡ next + labels op.now) }
    {
        match op {
            Op::Plain(plain) => {
                self.put_plain(alloc, plain)?;
                Ok(next)
            }
            Op::If {
                relation,
                left,
                right,
                yes,
                no,
                to,
            } => {
                self.put(Instruction::Branch {
                    relation: *relation,
                    left: *left,
                    right: *right,
                    label: next,
                })?;
                self.put_choice(alloc, next, yes, no, to)
            }
            Op::Case {
                value,
                arms,
                others,
                to,
            } => self.put_case(alloc, next, *value, arms.as_slice(), others, to),
            Op::Loop {
                marked,
                start,
                body,
                to,
            } => {
                self.put_hand(alloc, &body.parameters, start)?;
                self.put_label(next, *marked)?;
                self.put_rounds(alloc, next, body, to)
            }
            Op::Guard {
                mark,
                body,
                handler,
                to,
            } => {
                self.put(Instruction::Open { mark: *mark })?;
                self.put_handling(alloc, next, *mark, body, handler, to)
            }
            Op::Leave { exit, gives } => {
                self.put_leave(alloc, *exit, gives)?;
                Ok(next)
            }
        }
    }

    // The two regions of an If, behind its branch.
    #[cycle(put)]
    fn put_choice(
        &mut self,
        alloc: Global,
        next: u64,
        yes: &Region,
        no: &Region,
        to: &Items<u32>,
    ) -> Result<u64, Memory>
        ensures code { OnOk result (self.new.code.items ≡ self.old.code.items ++ choice_code (around_of self.old.around.items self.old.handler) next yes.now no.now to.now) }
        ensures around { OnOk result (self.new.around.items ≡ self.old.around.items) }
        ensures handler { OnOk result (self.new.handler ≡ self.old.handler) }
        ensures next { IfOk result (λ n. n ≡ next + 2 + labels_list yes.now.ops + labels_list no.now.ops) }
    {
        let behind = reserved(next, 2)?;
        let n = self.put_region(alloc, behind, yes, to)?;
        self.put(Instruction::Jump { label: next + 1 })?;
        self.put_label(next, false)?;
        let n = self.put_region(alloc, n, no, to)?;
        self.put_label(next + 1, false)?;
        Ok(n)
    }

    // The rounds of a loop, behind its label.
    #[cycle(put)]
    fn put_rounds(
        &mut self,
        alloc: Global,
        next: u64,
        body: &Region,
        to: &Items<u32>,
    ) -> Result<u64, Memory>
        ensures code { OnOk result (self.new.code.items ≡ self.old.code.items ++ rounds_code (around_of self.old.around.items self.old.handler) next body.now to.now) }
        ensures around { OnOk result (self.new.around.items ≡ self.old.around.items) }
        ensures handler { OnOk result (self.new.handler ≡ self.old.handler) }
        ensures next { IfOk result (λ n. n ≡ next + 2 + labels_list body.now.ops) }
    {
        let behind = reserved(next, 2)?;
        let to = copied_values(alloc, to)?;
        self.around.push(Target {
            label: next + 1,
            to,
        })?;
        let n = self.put_region(alloc, behind, body, &body.parameters)?;
        let _ = self.around.pop();
        self.put(Instruction::Jump { label: next })?;
        self.put_label(next + 1, false)?;
        Ok(n)
    }

    // The two regions of a Guard, behind its opening.
    #[cycle(put)]
    fn put_handling(
        &mut self,
        alloc: Global,
        next: u64,
        mark: u32,
        body: &Region,
        handler: &Region,
        to: &Items<u32>,
    ) -> Result<u64, Memory>
        ensures code { OnOk result (self.new.code.items ≡ self.old.code.items ++ handling_code (around_of self.old.around.items self.old.handler) next mark body.now handler.now to.now) }
        ensures around { OnOk result (self.new.around.items ≡ self.old.around.items) }
        ensures handler { OnOk result (self.new.handler ≡ self.old.handler) }
        ensures next { IfOk result (λ n. n ≡ next + 2 + labels_list body.now.ops + labels_list handler.now.ops) }
    {
        let behind = reserved(next, 2)?;
        let parameters = copied_values(alloc, &handler.parameters)?;
        let outer = self.handler.replace(Handler {
            label: next,
            mark,
            to: parameters,
        });
        let n = self.put_region(alloc, behind, body, to)?;
        self.handler = outer;
        self.put(Instruction::Jump { label: next + 1 })?;
        self.put_label(next, false)?;
        let n = self.put_region(alloc, n, handler, to)?;
        self.put_label(next + 1, false)?;
        Ok(n)
    }

    // All tests come first, then the others, and then the arms, each behind a jump to what follows
    // the Case.
    #[cycle(put)]
    fn put_case(
        &mut self,
        alloc: Global,
        next: u64,
        value: u32,
        arms: &[Arm],
        others: &Region,
        to: &Items<u32>,
    ) -> Result<u64, Memory>
        ensures code { OnOk result (self.new.code.items ≡ self.old.code.items ++ case_code (around_of self.old.around.items self.old.handler) next value arms.now others.now to.now) }
        ensures around { OnOk result (self.new.around.items ≡ self.old.around.items) }
        ensures handler { OnOk result (self.new.handler ≡ self.old.handler) }
        ensures next { IfOk result (λ n. n ≡ next + 1 + length arms.now + labels_list others.now.ops + labels_each arms.now) }
    {
        let first = reserved(next, 1)?;
        let behind = reserved(first, arms.len() as u64)?;
        self.put_tests(value, first, arms)?;
        let mut n = self.put_region(alloc, behind, others, to)?;
        let mut label = first;
        for arm in arms {
            n = self.put_arm(alloc, next, label, n, arm, to)?;
            label += 1;
        }
        self.put_label(next, false)?;
        Ok(n)
    }

    // An arm with no range is never come to.
    #[cycle(put)]
    fn put_arm(
        &mut self,
        alloc: Global,
        end: u64,
        label: u64,
        next: u64,
        arm: &Arm,
        to: &Items<u32>,
    ) -> Result<u64, Memory>
        ensures code { OnOk result (self.new.code.items ≡ self.old.code.items ++ arm_code arm.now.ranges end label (region_code (around_of self.old.around.items self.old.handler) next to.now arm.now.region)) }
        ensures around { OnOk result (self.new.around.items ≡ self.old.around.items) }
        ensures handler { OnOk result (self.new.handler ≡ self.old.handler) }
        ensures next { IfOk result (λ n. n ≡ next + arm_labels arm.now.ranges (labels_list arm.now.region.ops)) }
    {
        if arm.ranges.is_empty() {
            return Ok(next);
        }
        self.put(Instruction::Jump { label: end })?;
        self.put_label(label, false)?;
        self.put_region(alloc, next, &arm.region, to)
    }
}

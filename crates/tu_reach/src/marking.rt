// Marked texts, and those of them that are still to be followed.
ghost use Rattle.std.specs.Prelude.{◌≡◌, ◌<◌, [], vec_len, IfOk, OnOk};
ghost use Rattle.std.specs.List.{All};
ghost use Rattle.tu_reach.specs.Marks.{HasMarked, HasMarkedAll, IsFound, IsListed, IsUnmarked};

use crate::Rows;
use std::alloc::Global;
use tu_base::Memory;

#[derive(Drop)]
pub struct Marking {
    pub marks: Vec<bool>,
    // All that are marked, so that they are found without looking at the others.
    found: Vec<usize>,
    // Those of them whose callers may not be marked yet.
    work: Vec<usize>,
    ghost found_in_range: { All (λ a. a < vec_len marks) found.items },
    ghost work_in_range: { All (λ a. a < vec_len marks) work.items },
}

impl Marking {
    pub fn new(alloc: Global, texts: usize) -> Result<Self, Memory>
        ensures length { IfOk result (λ marking. vec_len marking.marks ≡ texts) }
        ensures none { IfOk result (λ marking. IsUnmarked marking.marks.items) }
    {
        let mut marks = Vec::new(alloc);
        for _text in 0..texts {
            marks.push(false)?;
        }
        Ok(Marking {
            marks,
            found: Vec::new(alloc),
            work: Vec::new(alloc),
        })
    }

    // Marks a text.
    fn mark(&mut self, text: usize) -> Result<(), Memory>
        requires { text < vec_len self.old.marks }
        ensures length { vec_len self.new.marks ≡ vec_len self.old.marks }
        ensures listed { IsListed self.old.marks.items self.old.found.items → IsListed self.new.marks.items self.new.found.items }
        ensures marked { OnOk result (HasMarked self.old.marks.items self.old.work.items self.new.marks.items self.new.work.items text) }
    {
        if !self.marks[text] {
            self.found.push(text)?;
            self.work.push(text)?;
            self.marks[text] = true;
        }
        Ok(())
    }

    // Marks texts.
    fn mark_all(&mut self, texts: &[usize]) -> Result<(), Memory>
        requires { All (λ a. a < vec_len self.old.marks) texts.now }
        ensures length { vec_len self.new.marks ≡ vec_len self.old.marks }
        ensures listed { IsListed self.old.marks.items self.old.found.items → IsListed self.new.marks.items self.new.found.items }
        ensures marked { OnOk result (HasMarkedAll self.old.marks.items self.old.work.items self.new.marks.items self.new.work.items texts.now) }
    {
        for text in texts {
            self.mark(*text)?;
        }
        Ok(())
    }

    // Marks none any more, in the time that it took to mark them.
    fn clear(&mut self)
        requires { IsListed self.old.marks.items self.old.found.items }
        ensures length { vec_len self.new.marks ≡ vec_len self.old.marks }
        ensures none { IsUnmarked self.new.marks.items }
        ensures done { self.new.work.items ≡ [] }
    {
        while let Some(text) = self.found.pop() {
            self.marks[text] = false;
        }
        self.work.clear();
    }

    // Marks just those that lead by calls to one of these.
    pub fn find(&mut self, calls: &Rows, texts: &[usize]) -> Result<(), Memory>
        requires listed { IsListed self.old.marks.items self.old.found.items }
        requires calls { calls.now.texts ≡ vec_len self.old.marks }
        requires texts { All (λ a. a < vec_len self.old.marks) texts.now }
        ensures length { vec_len self.new.marks ≡ vec_len self.old.marks }
        ensures listed { IsListed self.new.marks.items self.new.found.items }
        ensures found { OnOk result (IsFound calls.now.rows texts.now self.new.marks.items) }
    {
        self.clear();
        self.mark_all(texts)?;
        while let Some(text) = self.work.pop() {
            self.mark_all(calls.row(text))?;
        }
        Ok(())
    }
}

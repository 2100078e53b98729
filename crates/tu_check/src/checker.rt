// A source as a tree whose forms are built, or the first fault in it.
ghost use Rattle.std.specs.Prelude.{◌≡◌, ℕ, List, IfErr, IfOk};
ghost use Rattle.tu_check.specs.Errors.{IsCause};
ghost use Rattle.tu_check.specs.Refusals.{IsAccepted};

use crate::built::unbuilt_program;
use crate::{CheckError, Refusal, TypeError};
use std::alloc::Global;
use std::marker::Model;
use tu_base::{Bytes, MOST_SOURCE_BYTES};
use tu_lex::lex;
use tu_parse::parse;
use tu_scope::resolve;
use tu_tree::Tree;

/// The tree of a source that is accepted.
pub struct Checked {
    tree: Tree,
}

// Written out, so that crates above call this and need not know how a tree is let go.
impl Drop for Checked {
    fn drop(self) {
        let Checked { tree } = self;
        drop(tree);
    }
}

impl Model for Checked {
    ghost use Rattle.std.specs.Prelude.{ℕ, List};
    ghost use Rattle.tu_token.specs.Rules.{r-program};
    ghost use Rattle.tu_token.specs.Syntax.{Of, coded_of};

    ghost Value = { Of r-program };

    ghost coded = { coded_of r-program };

    ghost use Rattle.tu_check.specs.Refusals.{IsAccepted};

    ghost view = { λ c. c.tree };

    ghost invariant = { λ c. (source : List ℕ) × IsAccepted source c.tree };
}

impl Checked {
    /// The tree, which is that of some accepted source.
    pub fn tree(&self) -> &Tree
        ensures value { result.now ≡ self.now }
        ensures accepted { (source : List ℕ) × IsAccepted source self.now }
    {
        &self.tree
    }
}

/// The tree of a source, or the first group of faults that it has, at its least place, or want of
/// memory. Forms that are not built yet are the last group.
pub fn check(alloc: Global, source: &Bytes) -> Result<Checked, CheckError>
    ensures accepted { IfOk result (λ tree. IsAccepted source.now tree) }
    ensures refused { IfErr result (λ error. IsCause source.now error) }
{
    if source.len() > MOST_SOURCE_BYTES as usize {
        return Err(CheckError::Refused(Refusal::Size));
    }
    let tokens = lex(alloc, source)?;
    let tree = parse(alloc, &tokens)?;
    resolve(alloc, &tree)?;
    match unbuilt_program(alloc, &tree)? {
        Some(line) => Err(CheckError::Refused(Refusal::Types(TypeError::NotBuilt(line)))),
        None => Ok(Checked { tree }),
    }
}

//! The tree of a program: one type for each production. Tokens, faults and the table of the grammar stand
//! here too.
#![tactic(auto)]

mod clause;
mod declaration;
mod import;
mod program;
mod spec;
mod statement;
mod subprogram;

pub use clause::{Ending, Given, Givens, Invariant, Post, Pre};
pub use declaration::{Bind, Binding, Const, Start, StartForm, TypeDeclaration, Var, VarForm};
pub use import::{Export, ExportForm, ExportItem, Import, ImportForm, ImportItem};
pub use program::{Item, ItemForm, Module, ModulePart, Tree};
pub use spec::{
    Array, Base, BaseForm, Field, Index, IndexForm, Name, Names, Range, RangeForm, Spec,
    StringSize, Variant,
};
pub use statement::{
    Amount, Arm, Block, BlockPart, Elsif, OpenMode, Otherwise, Shown, Statement, StatementForm,
    Taken,
};
pub use subprogram::{
    Formal, Formals, Handler, Head, HeadForm, Rest, Subprogram, SubprogramForm, SubprogramKind,
};
pub use tu_expr::{
    And, Arg, ArgForm, At, Compare, Expr, Leaf, Multiplication, Not, Or, Path, Place, PlaceForm,
    Power, Prefix, Primary, PrimaryForm, Relation, RelationKind, Sign, Spot, Step, Sum, Term,
};
pub use tu_token::{
    Before, Class, Construct, LexError, ParseError, Role, Token, Tokens, one_fault,
    one_syntax_fault, one_token_decides, one_token_list, one_tree, spelling, spelling_is_read,
    table_is_as_printed, tree_or_fault, word_class,
};

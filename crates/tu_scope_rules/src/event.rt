// What a text does with names, one event after the other.
use std::marker::Model;
use tu_base::Line;

/// A name in the text.
#[derive(Drop)]
pub struct Name<'a> {
    pub text: &'a [u8],
    /// The place of its first byte.
    pub start: u32,
    pub line: Line,
}

impl<'a> Model for Name<'a> {
    ghost use Rattle.tu_scope_rules.specs.Names.{NameAt};

    ghost Value = { NameAt };

    ghost view = { λ n. record { text = n.text.now; start = n.start; line = n.line } };
}

/// What a scope sees of what lies around it.
#[derive(Clone, Copy, PartialEq, Eq, Debug)]
pub enum Visibility {
    /// All of it.
    All,
    /// What is listed, and the predefined names.
    Listed,
}

/// A kind of subprogram.
#[derive(Clone, Copy, PartialEq, Eq, Debug)]
pub enum BodyKind {
    Procedure,
    Function,
}

/// What is declared.
#[derive(Clone, Copy, PartialEq, Eq, Debug)]
pub enum Entity {
    Plain,
    /// A module, with the number of its scope.
    Module(u32),
    /// A subprogram, with the number of its scope and what is seen there.
    Subprogram(u32, Visibility),
}

/// Where a name is used.
#[derive(Clone, Copy, PartialEq, Eq, Debug)]
pub enum Context {
    Elsewhere,
    AfterPointer,
    InPost,
}

/// A declaration, by its number.
#[derive(Clone, Copy, PartialEq, Eq, Debug)]
pub struct Declaration {
    pub number: u32,
    pub entity: Entity,
}

/// What a text does with names.
#[derive(Drop)]
pub enum Event<'a> {
    /// A scope begins, with its number.
    Open(u32, Visibility),
    /// The innermost scope ends.
    Close,
    /// A name is visible from here on.
    Declare(Name<'a>, Declaration),
    /// A field, a tag or a value of an enumeration.
    Member(Name<'a>, Declaration),
    /// A subprogram's own name in its scope.
    Own(Name<'a>, Declaration),
    /// A collection's name in its element type, where `pointer to` sees it.
    Early(Name<'a>, Declaration),
    /// The name of a function's result, which `post` sees.
    Outcome(Name<'a>, Declaration),
    /// A name in the import list of the scope with this number, which begins later.
    Import(Name<'a>, u32),
    /// A name in an export list, where the module ends.
    Export(Name<'a>),
    /// A name is used.
    Use(Name<'a>, Context),
    /// A name and one behind its dot.
    Select(Name<'a>, Name<'a>, Context),
    /// A subprogram whose body stands later in this scope.
    Forward(Name<'a>, BodyKind, Declaration),
    /// A body, which is a scope, with its number.
    Body(Name<'a>, BodyKind, u32),
    /// The name of a forward once more, where its scope ends.
    Await(Name<'a>, BodyKind),
    /// The name after `end`, and the one that was opened.
    End(Name<'a>, Name<'a>),
}

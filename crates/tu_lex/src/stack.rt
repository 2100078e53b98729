// The brackets and constructs that are open.
ghost use Rattle.std.specs.Prelude.{◌≡◌, ◌≤◌, ◌↔◌, IsTrue, length};
ghost use Rattle.tu_token.specs.Nests.{role_of, is_opened, no_nest, opened, closed, ended, nest_after, depth};

use std::marker::Model;
use tu_base::MOST_OPEN;
use tu_token::{Before, Class, Construct, Role};

const DEEPEST: usize = MOST_OPEN as usize;

/// The constructs that are open, at most `MOST_OPEN`, and the token before.
#[derive(Drop)]
pub struct Nest {
    stack: [Construct; DEEPEST],
    depth: usize,
    before: Before,
}

impl Model for Nest {
    ghost use Rattle.std.specs.Prelude.{◌≤◌, take, reverse};
    ghost use Rattle.tu_base.specs.declared.limits.TheConstants.{MOST_OPEN};
    ghost use Rattle.tu_token.specs.Nests.{Nest as Open};

    ghost Value = { Open };

    ghost view = { λ n. record { stack = reverse (take n.depth n.stack); before = n.before } };

    ghost invariant = { λ n. n.depth ≤ MOST_OPEN };
}

fn role_of(class: Class) -> Role
    ensures { result ≡ role_of class }
{
    match class {
        Class::SignLeftBracket => Role::Opens(Construct::Bracket),
        Class::WordIf => Role::Opens(Construct::If),
        Class::WordLoop => Role::Opens(Construct::Loop),
        Class::WordFor => Role::Opens(Construct::For),
        Class::WordCase => Role::Opens(Construct::Case),
        Class::WordRecord => Role::Opens(Construct::Record),
        Class::WordUnion => Role::Opens(Construct::Union),
        Class::WordBegin => Role::Opens(Construct::Begin),
        Class::WordModule => Role::Opens(Construct::Module),
        Class::WordHandler => Role::Opens(Construct::Handler),
        Class::WordProcedure | Class::WordFunction => Role::Opens(Construct::Subprogram),
        Class::SignRightBracket => Role::Closes,
        Class::WordEnd => Role::Ends,
        Class::WordForward => Role::Forwards,
        _ => Role::Plain,
    }
}

// Whether a word of a construct opens it behind this token.
fn is_opened(before: Before, construct: Construct) -> bool
    ensures { result ≡ is_opened before construct }
{
    match construct {
        Construct::Subprogram => before != Before::Forward,
        Construct::If
        | Construct::Loop
        | Construct::For
        | Construct::Case
        | Construct::Record
        | Construct::Union
        | Construct::Handler => before != Before::End(construct),
        Construct::Bracket | Construct::Begin | Construct::Module => true,
    }
}

impl Nest {
    /// Nothing is open.
    pub fn new() -> Self
        ensures { result ≡ no_nest }
    {
        Nest {
            stack: [Construct::Bracket; DEEPEST],
            depth: 0,
            before: Before::Other,
        }
    }

    // Opens a construct, where its word does. False where there is no room for it.
    fn open(&mut self, construct: Construct) -> bool
        ensures fits { IsTrue result ↔ (depth (opened self.old construct) ≤ MOST_OPEN) }
        ensures after { IsTrue result → self.new ≡ opened self.old construct }
    {
        if is_opened(self.before, construct) {
            if self.depth == DEEPEST {
                return false;
            }
            self.stack[self.depth] = construct;
            self.depth += 1;
        }
        self.before = Before::Other;
        true
    }

    // Closes the innermost, where it is a bracket.
    fn close(&mut self)
        ensures after { self.new ≡ record { stack = closed self.old.stack; before = Before.Other } }
        ensures fits { length (closed self.old.stack) ≤ MOST_OPEN }
    {
        if self.depth > 0 && self.stack[self.depth - 1] == Construct::Bracket {
            self.depth -= 1;
        }
        self.before = Before::Other;
    }

    // Ends the innermost, where it is no bracket.
    fn end(&mut self)
        ensures after { self.new ≡ ended self.old.stack }
        ensures fits { depth (ended self.old.stack) ≤ MOST_OPEN }
    {
        self.before = Before::Other;
        if self.depth > 0 {
            let innermost = self.stack[self.depth - 1];
            if innermost != Construct::Bracket {
                self.depth -= 1;
                self.before = Before::End(innermost);
            }
        }
    }

    /// Goes on behind a token, or answers false where more than `MOST_OPEN` constructs would then be open.
    pub fn enter(&mut self, class: Class) -> bool
        ensures fits { IsTrue result ↔ (depth (nest_after self.old class) ≤ MOST_OPEN) }
        ensures after { IsTrue result → self.new ≡ nest_after self.old class }
    {
        match role_of(class) {
            Role::Opens(construct) => self.open(construct),
            Role::Closes => {
                self.close();
                true
            }
            Role::Ends => {
                self.end();
                true
            }
            Role::Forwards => {
                self.before = Before::Forward;
                true
            }
            Role::Plain => {
                self.before = Before::Other;
                true
            }
        }
    }
}

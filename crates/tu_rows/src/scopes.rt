// Names: what is seen where, and the fault that is told. What no fault is told of is refused as not built, but for the last rows.

use crate::outside::End::{NotBuilt, Scope};
use crate::outside::{ENDED, End};
use crate::programs::{is_checked, is_refused_so};
use crate::rows::{Text, rows_hold};
use std::alloc::Global;
use tu_scope::ScopeError::{BodyMissing, NotExported, NotImported, Twice, Unknown, WrongEnd};

// A source, and why it is refused.
type Row = (Text, End);

// Each sentence of the rules in turn.
const NAMES: &[Row] = &[
    // a name is visible from the end of its declaration on
    ("put 1\nput x", Scope(Unknown(2))),
    ("x := 1\nvar x : int", Scope(Unknown(1))),
    ("var x := x", Scope(Unknown(1))),
    ("const c : 1 .. c := 1", Scope(Unknown(1))),
    ("type t : array 1 .. 2 of t", Scope(Unknown(1))),
    ("p\nprocedure p\nend p", Scope(Unknown(1))),
    // to the end of its scope
    ("begin\nvar y : int\nend\ny := 1", Scope(Unknown(4))),
    (
        "loop\nvar y : int\nexit\nend loop\ny := 1",
        Scope(Unknown(5)),
    ),
    ("for i : 1 .. 2\nend for\nput i", Scope(Unknown(3))),
    ("for i : i .. 2\nend for", Scope(Unknown(1))),
    // once in a scope, and again in an inner one
    ("var x : int\nvar x : int", Scope(Twice(2))),
    ("var x,\nx : int", Scope(Twice(2))),
    ("var x : int\nbegin\nvar x := x\nput x\nend", NotBuilt(2)),
    ("for i : 1 .. 2\nvar i : int\nend for", Scope(Twice(2))),
    ("procedure p (a, a : int)\nend p", Scope(Twice(1))),
    ("procedure p (a : int)\nvar a : int\nend p", Scope(Twice(2))),
    (
        "procedure p\ninit a := 1\nvar a : int\nend p",
        Scope(Twice(3)),
    ),
    // fields, tags and enumeration values
    (
        "type t : record\na : int\na : int\nend record",
        Scope(Twice(3)),
    ),
    (
        "type t : union a : 1 .. 1 of label 1 :\na : int\nend union",
        Scope(Twice(2)),
    ),
    ("type t : enum (a,\na)", Scope(Twice(2))),
    (
        "type t : record a : int end record\ntype u : record a : int end record",
        NotBuilt(1),
    ),
    // a collection sees itself behind `pointer to` alone
    ("var c : collection of c", Scope(Unknown(1))),
    (
        "var c : collection of record\nnext : pointer to c end record",
        NotBuilt(1),
    ),
    // subprograms
    ("procedure p\np\nend p", NotBuilt(1)),
    (
        "forward procedure p\nprocedure q\np\nend q\nbody procedure p\nq\nend p",
        NotBuilt(1),
    ),
    ("forward procedure p\nput 1", Scope(BodyMissing(1))),
    (
        "forward procedure p\nbody function p\nend p",
        Scope(BodyMissing(1)),
    ),
    (
        "forward procedure p\nbody procedure p\nend p\nbody procedure p\nend p",
        Scope(Twice(4)),
    ),
    ("body procedure p\nend p", Scope(Unknown(1))),
    (
        "forward procedure p (a : int)\nbody procedure p\na := 1\nend p",
        NotBuilt(1),
    ),
    ("procedure p\nend q", Scope(WrongEnd(2))),
    (
        "function f r : int\npost r = 1\nresult 1\nend f",
        NotBuilt(1),
    ),
    ("function f r : int\nresult r\nend f", Scope(Unknown(2))),
    (
        "procedure p\nhandler (e)\nput e\nend handler\nput e\nend p",
        Scope(Unknown(5)),
    ),
    // import lists
    ("var x : int\nprocedure p\nx := 1\nend p", NotBuilt(2)),
    (
        "var x : int\nprocedure p\nimport ()\nx := 1\nend p",
        Scope(NotImported(4)),
    ),
    (
        "var x : int\nprocedure p\nimport (var x)\nx := abs (1)\np\nend p",
        NotBuilt(2),
    ),
    ("procedure p\nimport (p)\nend p", Scope(Unknown(2))),
    ("procedure p\nimport ()\nx := 1\nend p", Scope(Unknown(3))),
    // modules
    (
        "var x : int\nmodule m\nx := 1\nend m",
        Scope(NotImported(3)),
    ),
    ("module m\nm.x := 1\nend m", Scope(Unknown(2))),
    ("module m\nend n", Scope(WrongEnd(2))),
    ("module m\nexport x\nend m", Scope(Unknown(2))),
    (
        "module m\nexport x\nvar x : int\nend m\nput m.x",
        NotBuilt(1),
    ),
    (
        "module m\nvar x : int\nend m\nput m.x",
        Scope(NotExported(4)),
    ),
    ("module m\nend m\nput m.\nx", Scope(Unknown(4))),
    (
        "module m\nforward procedure p\nend m",
        Scope(BodyMissing(2)),
    ),
    // the least place answers, before all that is not built
    (
        "forward procedure p\nput x\nprocedure q\nend r",
        Scope(BodyMissing(1)),
    ),
    ("put true\nput x", Scope(Unknown(2))),
];

#[test]
fn names_have_their_declarations(rt: HostRuntime) {
    rows_hold(&rt, rt.alloc(), NAMES, is_refused_so);
}

// Predefined names may be hidden.
const ACCEPTED: &[Text] = &[
    "var abs := 1\nput abs",
    "var x := 1\nif x = 1 then put x end if",
];

#[test]
fn hidden_names_are_found(rt: HostRuntime) {
    rows_hold(
        &rt,
        rt.alloc(),
        ACCEPTED,
        |alloc: Global, source: &Text| is_checked(alloc, source.as_bytes(), ENDED),
    );
}

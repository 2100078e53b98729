// The parser and back: tokens as trees, the first token at fault, and trees as tokens.

use crate::lexemes::tokens_of;
use crate::rows::{Text, rows_hold};
use std::alloc::Global;
use std::test::Fail;
use tu_flatten::{flatten, spelled_bytes};
use tu_parse::parse;
use tu_token::{LexError, ParseError, Token, Tokens};

// Every production of the grammar at least once.
const EVERY: &str = "\
const limit : int := 10; % a comment
const table := init (1, init (2, 3))
var c : collection of int var x, y : int := 1 var s := \"te\\\"xt\" /* and
another */
type color : enum (red, green) type pair : record a, b : int; c : boolean end record
type shape : union kind : color of label color.red : r : int label : end union
type other : union : 1 .. 2 of label 1, 2 : a : int; end union
type grid : array 1 .. 3, color, 0 .. * of array pair.kind of string (20)
type words : array 1 .. 2 of string (*) type line : string
type bag : set of color type link : pointer to list.node
forward procedure later (var a, b : int, c : string) import (var x, y)
forward function next : int import x
body procedure later pre a > 0 init old := a, was := b post a = old begin return end end later
body function next result 1 end next
procedure plain () end plain
procedure guarded pre true handler (kind) put kind quit : kind + 1; end handler quit end guarded
function kept : int handler (kind) result kind end handler result 1 end kept
function twice (n : int) answer : int import () result n * 2 end twice
module stack
  import var x, y export (opaque node, push)
  const top := 1 var depth : int type node : int invariant depth >= 0;
  forward procedure pop procedure push depth := depth + 1 end push body procedure pop end pop
  push;
end stack
module empty export top end empty
begin const k := 1 var z : int type t : boolean bind var p to x, q to y (1).a z := k end
if x = 1 then put \"one\" elsif x not= 2 then put \"two\"; else put \"more\" end if
loop invariant x >= 0 exit when x < 0; exit end loop
for i : 1 .. 3 invariant i > 0 put i end for for decreasing j : color put 1 end for
case x of label 1, 2 : put 1 label 3 : x := 2 label : put 3 end case case y of label 4 : end case
assert true and false or not x in bag => y not in bag (red, all)
new c, p free c, p tag u, color.red
put : 3, \"a\" : 10, x : 2 .. get : 4, x : *, y : 3, s get x
open : f, \"name\", put open : f, \"name\", get close : f
x := -1 + +2 - 3 * 4 div 5 mod 6 ** 2 y := ((1) <= 2)
s := \"abc\" (1 .. 2) (* - 1) (* .. *) p := nil (c)
a (1, 2 .. *, all).b () := false stack.push (x, y)
";

// A source, and the token at fault with its line, if there is one.
type Row = (Text, Option<(u32, u32)>);

const PARSED: &[Row] = &[
    ("", None),
    ("x := y z", None),
    ("if 1 = 1\nput 1", Some((4, 2))),
    ("end", Some((0, 1))),
    ("put 1 )", Some((2, 1))),
    ("put 1 +\n", Some((3, 2))),
    ("if true then", Some((3, 1))),
    ("if true then\n", Some((3, 2))),
    ("procedure p handler (e) end handler end p", None),
    (
        "procedure p handler (e)\nend handler\nhandler (f)",
        Some((8, 3)),
    ),
    ("procedure p handler ()", Some((4, 1))),
    ("quit : 1 quit", None),
    ("put quit", Some((1, 1))),
];

fn is_tree_or_fault(alloc: Global, row: &Row) -> Result<bool, LexError> {
    let (source, fault) = *row;
    let tokens = tokens_of(alloc, source.as_bytes())?;
    Ok(match parse(alloc, &tokens) {
        Ok(_) => fault.is_none(),
        Err(ParseError::Unexpected { token, line }) => fault == Some((token, line)),
        Err(ParseError::Memory) => false,
    })
}

#[test]
fn tokens_are_trees_or_faults(rt: HostRuntime) {
    rows_hold(&rt, rt.alloc(), PARSED, is_tree_or_fault);
}

// Whether both lists have the same lexemes.
fn are_alike(left: &Tokens, right: &Tokens) -> bool {
    let mut pairs = left.as_slice().iter().zip(right.as_slice());
    let same = |(x, y): (&Token, &Token)| x.class == y.class
        && x.text.as_slice() == y.text.as_slice();
    left.len() == right.len() && pairs.all(same)
}

// The tokens of the tree that they are, on one line.
fn flattened(alloc: Global, tokens: &Tokens) -> Result<Option<Tokens>, ParseError> {
    if tokens.len() > 65_536 || spelled_bytes(tokens) > 1_048_576 {
        return Ok(None);
    }
    let tree = parse(alloc, tokens)?;
    match flatten(alloc, &tree) {
        Ok(flat) => Ok(Some(flat)),
        Err(_) => Err(ParseError::Memory),
    }
}

#[test]
fn every_production_is_parsed_and_flattened(rt: HostRuntime) -> Result<(), Fail> {
    let alloc = rt.alloc();
    let tokens = tokens_of(alloc, EVERY.as_bytes())?;
    let flat = flattened(alloc, &tokens)?;
    assert!(rt; flat.as_ref().is_some_and(|flat| are_alike(flat, &tokens)));
    if let Some(flat) = flat {
        let again = flattened(alloc, &flat)?;
        assert!(rt; again.is_some_and(|again| are_alike(&again, &flat)));
    }
    Ok(())
}

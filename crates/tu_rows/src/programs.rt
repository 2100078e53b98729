// Sources. What is accepted is checked, run, and built to an image that runs as the source does.

use crate::lexemes::repeated;
use crate::outside::End::{NotBuilt, Scope, Stopped, Syntax};
use crate::outside::{
    AMPLE, Answer, BAD_NUMBER, ENDED, End, OPEN_TEXT, Outside, SIZE, TOO_DEEP, Truth,
};
use crate::rows::{Text, rows_hold};
use std::alloc::Global;
use std::test::Fail;
use tu_base::Kind::{Overflow, Range, Unset};
use tu_base::{Bytes, Memory};
use tu_run::Status;
use tu_scope::ScopeError::{Twice, Unknown};

// A source, what it writes, and how it ends.
type Row = (Text, Text, End);

const SOURCES: &[Row] = &[
    ("put 1 + 2 * 3\n", "7\n", ENDED),
    ("put 2 - 3 * 4 - 5", "-15\n", ENDED),
    ("put 2 - 3 * (4 - 5)", "5\n", ENDED),
    ("put 1 /* a % b */ + 2;", "3\n", ENDED),
    (
        "% one\nput 1 % two\n;put 2; put ((1 + 2)) * (3 - (4))\r\n\tput\n007*2\nput 2147483647 put 0 - 2147483647",
        "1\n2\n-3\n14\n2147483647\n-2147483647\n",
        ENDED,
    ),
    ("", "", ENDED),
    ("put 2147483647 + 1", "", Stopped(Overflow, 1)),
    ("put 5 put 2147483647 + 1", "5\n", Stopped(Overflow, 1)),
    (
        "put 5\n\nput (2147483647 * 2) * 0\nput 6\n",
        "5\n",
        Stopped(Overflow, 3),
    ),
];

pub const SUM: &str = "\
var i := 1 var s := 0
loop exit when i > 10 s := s + i i := i + 1 end loop
put s
";

// Each arm of a choice in turn.
const ARMS: &str = "\
var n := 1
loop
  exit when n > 4
  if n = 1 then put 10 elsif n = 2 then put 20 elsif n not= 3 then put 30 else put 40 end if
  n := n + 1
end loop
";

// The inner loop is left and the outer one goes on.
const NESTED: &str = "\
var i, j := 0
loop
  exit when i >= 2
  j := 0
  loop if j = 2 then exit end if j := j + 1 end loop
  i := i + 1
  put i, j
end loop
put 7
";

const COMPARED: &str = "\
if 0 - 1 < 1 then put 1 end if
if 1 <= 1 then put 2 end if
if 2 >= 3 then put 3 end if
if 2147483647 > 0 - 2147483647 then put 4 end if
if 5 not= 5 then put 5 else put 6 end if
";

const WIDTHS: &str = "var x, y : int := 3\nx := x * y\nput x, y : 4 ..\nput 0 - x : 5, 7 : 0";

const THIRD_LINE: &str = "if 1 = 2 then\n  put 1\nelsif 2147483647 + 1 = 2 then\n  put 2\nend if";

const SECOND_ROUND: &str = "var x := 2147483647 loop\nput x\nx := x + 1\nend loop";

const PROGRAMS: &[Row] = &[
    (SUM, "55\n", ENDED),
    (ARMS, "10\n20\n40\n30\n", ENDED),
    (NESTED, "12\n22\n7\n", ENDED),
    (COMPARED, "1\n2\n4\n6\n", ENDED),
    (WIDTHS, "9   3   -97\n", ENDED),
    ("put 0 - 65536 * 32767 - 65535", "-2147483647\n", ENDED),
    ("put 65536 * 32768", "", Stopped(Overflow, 1)),
    ("put 0 - 2147483647 - 1", "", Stopped(Overflow, 1)),
    ("var x : int\nput x", "", Stopped(Unset, 2)),
    ("var x : int\nput 1, x", "1", Stopped(Unset, 2)),
    ("put 1, 2 : 256", "1", Stopped(Range, 1)),
    ("put 1 : 0 - 1", "", Stopped(Range, 1)),
    (
        "var x := 2147483647\nx :=\n  x + 1",
        "",
        Stopped(Overflow, 2),
    ),
    (THIRD_LINE, "", Stopped(Overflow, 3)),
    (SECOND_ROUND, "2147483647\n", Stopped(Overflow, 3)),
];

/// Whether `check` ends so of a source, and leaves its file.
pub fn is_checked(alloc: Global, source: &[u8], end: End) -> Truth {
    let mut outside = Outside::make(alloc, source, AMPLE)?;
    let answered = outside.answers(alloc, "check a.t", &(end, Some(0), ""))?;
    Ok(answered && outside.has_file(alloc, "a.t", Some(source))?)
}

// Whether `run` answers so of a source.
fn is_run(alloc: Global, source: &[u8], answer: &Answer) -> Truth {
    let mut outside = Outside::make(alloc, source, AMPLE)?;
    Ok(outside.answers(alloc, "run a.t", answer)?)
}

// The bytes of the image that is built, if one is.
fn built(alloc: Global, outside: &mut Outside) -> Result<Option<Bytes>, Memory> {
    let report = outside.report(alloc, "build a.t a.img")?;
    if report.status != Status::Ended || report.instructions != 0 {
        return Ok(None);
    }
    Ok(match &report.image {
        Some(image) => Some(image.bytes(alloc)?),
        None => None,
    })
}

// Whether a source is built to an image that is kept, and that then answers so.
fn is_built(alloc: Global, source: &[u8], answer: &Answer) -> Truth {
    let mut outside = Outside::make(alloc, source, AMPLE)?;
    let Some(bytes) = built(alloc, &mut outside)? else {
        return Ok(false);
    };
    let kept = outside.has_file(alloc, "a.img", Some(bytes.as_slice()))?;
    Ok(kept && outside.answers(alloc, "exec a.img", answer)?)
}

fn does_so(alloc: Global, row: &Row) -> Truth {
    let (source, output, end) = *row;
    let source = source.as_bytes();
    let answer = (end, None, output);
    let checked = is_checked(alloc, source, ENDED)?;
    let ran = is_run(alloc, source, &answer)?;
    Ok(checked && ran && is_built(alloc, source, &answer)?)
}

#[test]
fn sources_do_what_they_tell(rt: HostRuntime) {
    rows_hold(&rt, rt.alloc(), SOURCES, does_so);
    rows_hold(&rt, rt.alloc(), PROGRAMS, does_so);
}

/// A source, and why it is refused.
pub type Refused = (Text, End);

const REFUSED: &[Refused] = &[
    ("put 2147483648", BAD_NUMBER),
    ("put 1put 2", BAD_NUMBER),
    ("put \"a", OPEN_TEXT),
    ("if true then", Syntax(1)),
    ("if true then\n", Syntax(2)),
    ("if 1 = 1\nput 1", Syntax(2)),
    ("end", Syntax(1)),
    ("put 1 )", Syntax(1)),
    ("put 1 +\n", Syntax(2)),
    ("put true\nput put", Syntax(2)),
    ("module M end M", NotBuilt(1)),
    ("put1", Scope(Unknown(1))),
    ("put -1", NotBuilt(1)),
    ("put 1 *\n(2 div 3)\nput true", NotBuilt(2)),
    ("put 1 +\nx * 2\nreturn", Scope(Unknown(2))),
    ("var x := x", Scope(Unknown(1))),
    ("var x := 1\nvar y, x := 2", Scope(Twice(2))),
    ("var x,\nx := 2", Scope(Twice(2))),
    ("x := 1\nvar x := 2", Scope(Unknown(1))),
    ("put 1\nexit", NotBuilt(2)),
    (
        "loop\nif 1 = 1 then exit end if\nend loop\nexit when 1 = 1",
        NotBuilt(4),
    ),
    ("if (1 = 1) then put 1 end if", NotBuilt(1)),
    ("var i := 1\nif i then put 1 end if", NotBuilt(2)),
    ("put 1 = 1", NotBuilt(1)),
    ("var b : boolean", NotBuilt(1)),
    ("loop invariant 1 = 1\nexit end loop", NotBuilt(1)),
    ("if 1 = 1 then\nvar x := 1\nend if", NotBuilt(2)),
    ("put 1 +\n2 +\ny\ny := 1", Scope(Unknown(3))),
    ("put 1\nquit", NotBuilt(2)),
    ("quit : 2", NotBuilt(1)),
    (
        "procedure p\nhandler (e) quit end handler\nend p",
        NotBuilt(1),
    ),
    (
        "procedure p\nhandler (e) end handler\nhandler (f) end handler\nend p",
        Syntax(3),
    ),
    ("procedure p\nhandler ()\nend handler\nend p", Syntax(2)),
    ("procedure p handler\nput 1 end handler end p", Syntax(2)),
    ("handler (e) end handler", Syntax(1)),
    ("var quit : int", Syntax(1)),
    ("var handler := 1", Syntax(1)),
    ("quit := 1", Syntax(1)),
];

// Whether a source is refused so by `check` and by `run`.
fn is_refused(alloc: Global, source: &[u8], end: End) -> Truth {
    let checked = is_checked(alloc, source, end)?;
    Ok(checked && is_run(alloc, source, &(end, Some(0), ""))?)
}

/// Whether a row holds.
pub fn is_refused_so(alloc: Global, row: &Refused) -> Truth {
    is_refused(alloc, row.0.as_bytes(), row.1)
}

#[test]
fn sources_are_refused(rt: HostRuntime) {
    rows_hold(&rt, rt.alloc(), REFUSED, is_refused_so);
}

// A number in so many brackets.
fn in_brackets(alloc: Global, count: usize) -> Result<Bytes, Memory> {
    let mut source = repeated(alloc, "put ", "(", count, "1")?;
    for _ in 0..count {
        source.add(b')')?;
    }
    Ok(source)
}

fn is_deepest(alloc: Global, most: usize) -> Truth {
    let deepest = in_brackets(alloc, most)?;
    let deeper = in_brackets(alloc, most.saturating_add(1))?;
    let ran = is_run(alloc, deepest.as_slice(), &(ENDED, None, "1\n"))?;
    Ok(ran && is_refused(alloc, deeper.as_slice(), TOO_DEEP)?)
}

fn is_largest(alloc: Global, most: usize) -> Truth {
    let largest = repeated(alloc, "", " ", most, "")?;
    let larger = repeated(alloc, " ", " ", most, "")?;
    let ran = is_run(alloc, largest.as_slice(), &(ENDED, None, ""))?;
    Ok(ran && is_refused(alloc, larger.as_slice(), SIZE)?)
}

#[test]
fn sources_are_at_their_limits(rt: HostRuntime) -> Result<(), Fail> {
    assert!(rt; is_deepest(rt.alloc(), 32)?);
    assert!(rt; is_largest(rt.alloc(), 1_048_576)?);
    Ok(())
}

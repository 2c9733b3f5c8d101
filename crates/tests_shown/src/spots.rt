//! Where statements stand, in texts whose places were counted by hand.

use std::alloc::Global;
use std::test::Fail;
use tests_shared::{Checked, is_same};
use tick_syntax::tokens;
use ticklab_trace::{StatementPlace, places};

static TEXT: &str = "\
# a comment with ; and { and stamp;
processes 2; var a, b; reg r;
begin stamp; clear; # two in a line; stamp;
\ta = 1;
  if (a < 2) { } else { b = 2; out b; }
  while a {
    a = get r
      me; # more;
    while b { b = (b - 1); } if b { out a; } else { }
  } put r a;
end
";

static SPOTS: [(usize, usize, &str); 13] = [
    (3, 7, "stamp;"),
    (3, 14, "clear;"),
    (4, 2, "a = 1;"),
    (5, 3, "if (a < 2)"),
    (5, 25, "b = 2;"),
    (5, 32, "out b;"),
    (6, 3, "while a"),
    (7, 5, "a = get r"),
    (9, 5, "while b"),
    (9, 15, "b = (b - 1);"),
    (9, 30, "if b"),
    (9, 37, "out a;"),
    (10, 5, "put r a;"),
];

// A comment within a statement, before its block, and beside blanks at the end of a line.
static COMMENTED: &str = "\
processes 6; # é ; { begin
var a; scan s, t; reg r, q;
begin a = # what is é?
 older s 1 (a + # 1
 2); s = scan\t\r
; while (a < n) # é {
  { t = copy s; if a # {
  { a = held t me; } else { put q a; } } out
a; end";

static COMMENTED_SPOTS: [(usize, usize, &str); 8] = [
    (3, 7, "a = # what is é?"),
    (5, 6, "s = scan"),
    (6, 3, "while (a < n)"),
    (7, 5, "t = copy s;"),
    (7, 17, "if a"),
    (8, 5, "a = held t me;"),
    (8, 29, "put q a;"),
    (8, 42, "out"),
];

fn are(spots: &[StatementPlace<'_>], wanted: &[(usize, usize, &str)]) -> Result<(), Fail> {
    is_same(&spots.len(), &wanted.len())?;
    for (spot, wanted) in spots.iter().zip(wanted) {
        is_same(&(spot.line, spot.column, spot.words), wanted)?;
    }
    Ok(())
}

fn stand(alloc: Global, text: &str, wanted: &[(usize, usize, &str)]) -> Result<(), Fail> {
    let tokens = tokens(alloc, text)?;
    are(
        &places(alloc, &Checked::new(alloc, text)?.program, text, &tokens)?,
        wanted,
    )
}

#[test]
fn spots(rt: HostRuntime) -> Result<(), Fail> {
    stand(rt.alloc(), TEXT, &SPOTS)?;
    stand(rt.alloc(), COMMENTED, &COMMENTED_SPOTS)
}
